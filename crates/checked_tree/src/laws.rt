ghost use Rattle.checked_tree.specs.Laws.{CheckedTrees};

/// The tree of a checked description is one of which checking finds each fact.
pub fn checked_law()
    ensures { CheckedTrees }
{}
