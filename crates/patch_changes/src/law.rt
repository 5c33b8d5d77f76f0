ghost use Rattle.patch_changes.specs.Laws.{ModifyingIsChanging};

/// What `_modify` does among the rows of an element is what it does to its children in the tree, one after the other.
pub fn modifying_law()
    ensures { ModifyingIsChanging }
{}
