// The laws of arrays.
ghost use Rattle.patch_arrays.specs.Laws.{ArrayIsAmongRows, ArrayKeepsElements, ArrayKeepsSiblings, ArrayLeavesFewer, BoundedEditsAgree, LikenessIsEquality, SiblingsAreApart};

/// An array in the tree is the command among the flat rows, and keeps what holds of a description.
pub fn array_law()
    ensures among_rows { ArrayIsAmongRows }
    ensures fewer { ArrayLeavesFewer }
    ensures elements { ArrayKeepsElements }
    ensures siblings { ArrayKeepsSiblings }
    ensures apart { SiblingsAreApart }
    ensures bounded { BoundedEditsAgree }
{}

/// Members are alike exactly where they are equal but for name and offset.
pub fn likeness_law()
    ensures { LikenessIsEquality }
{}
