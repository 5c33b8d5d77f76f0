ghost use Rattle.derive_sources.specs.Laws.{TreesAreNumbered};

/// The elements of a description have the numbers that a walk of its tree gives them.
pub fn numbers_law()
    ensures { TreesAreNumbered }
{}
