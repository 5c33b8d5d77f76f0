ghost use Rattle.crate_fits.specs.Laws.{CheckedCratesFit, CratesFit};

/// The crate that is emitted for a checked description fits; so does that of each tree of which checking finds
/// its facts.
pub fn fits_law()
    ensures checked { CheckedCratesFit }
    ensures trees { CratesFit }
{}
