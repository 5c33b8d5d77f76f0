// The laws of crate texts that stand for descriptions.
ghost use Rattle.crate_means.specs.Laws.{EmittedFaults, EmittedMeaning, EmittedPlaces, EmittedPresets, EmittedStands, EmittedSurface, PlacesAreAlike, SameFaults, SameMeaning, SamePresets, SameSurface};
ghost use Rattle.crate_means.specs.Worked.{WorkedStands};

/// At each place stands the register of the table's row, at the row's address, or none on both sides.
pub fn place_law()
    ensures { PlacesAreAlike }
{}

/// A script means the same against the text as against the table, whatever the answers are, and has the same
/// presets.
pub fn script_law()
    ensures meaning { SameMeaning }
    ensures presets { SamePresets }
{}

/// The text offers to scripts what the table offers: so each script has the same first fault.
pub fn surface_law()
    ensures surface { SameSurface }
    ensures faults { SameFaults }
{}

/// There is such a crate text.
pub fn worked_law()
    ensures { WorkedStands }
{}

/// The crate that is emitted for a checked description stands for it: so it is laid out as the table has it, and
/// scripts fit and mean against it what they do against the table.
pub fn emitted_law()
    ensures stands { EmittedStands }
    ensures places { EmittedPlaces }
    ensures surface { EmittedSurface }
    ensures faults { EmittedFaults }
    ensures meaning { EmittedMeaning }
    ensures presets { EmittedPresets }
{}
