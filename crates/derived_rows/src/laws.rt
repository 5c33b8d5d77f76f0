ghost use Rattle.std.specs.Prelude.{List};
ghost use Rattle.derived_rows.specs.Laws.{CirclesDerive, HasOneFault, LevelsAreEnough, NothingDerives, PathsAreKept};
ghost use Rattle.svd_model.specs.Keys.{Key};
ghost use Rattle.svd_model.specs.Steps.{Step};
ghost use Rattle.svd_rows.specs.Rows.{Row};

/// Where elements don't depend on one another in a circle, the levels of deriving are never used up.
pub fn levels_law()
    ensures { LevelsAreEnough }
{}

/// A circle passes an element that states a source, so that there is a first one to tell.
pub fn circle_law()
    ensures { CirclesDerive }
{}

/// A description in which no element states a source derives to itself.
pub fn undone_law()
    ensures { NothingDerives }
{}

/// Deriving keeps the paths of peripherals, clusters, registers, fields and sets.
pub fn paths_law()
    ensures { PathsAreKept }
{}

/// A description has one first fault at most, and none where it is derived.
pub fn fault_law()
    ensures { (all : List (Row Step Key)) → HasOneFault all }
{}
