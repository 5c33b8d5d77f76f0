// The laws of patches.
ghost use Rattle.patch_sem.specs.Laws.{ApartCommute, CopyLeftOutIsNothing, DeletionLeavesNone, RenamedBackIsNothing};

/// A deletion of all that matches leaves nothing that matches.
pub fn deletion_law()
    ensures { DeletionLeavesNone }
{}

/// Commands at parents without common elements leave the same in either order.
pub fn apart_law()
    ensures { ApartCommute }
{}

/// A copy, and then all but the copy, is what stood before.
pub fn copy_law()
    ensures { CopyLeftOutIsNothing }
{}

/// Where names are free, renaming there and back is nothing.
pub fn renaming_law()
    ensures { RenamedBackIsNothing }
{}
