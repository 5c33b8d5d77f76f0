// The laws of layouts, words, typing, meaning and surfaces.
ghost use Rattle.frag_sem.specs.Laws.{AlikeMean, AlikePreset, BitReaderGets, CallsAreThere, CallsByModules, CutEndsDecide, EndsDecide, EndsGrow, EventsAreFew, EventsInRange, FaultsByModules, FieldsAligned, FieldsApart, FitsByTests, FittingMeans, FittingPresets, MeansOne, MembersLieLower, PlaceBehindEnd, PlaceBehindGap, PlacesAreRegisters, PresetsInRange, PresetsOne, ReaderGets, ReadsAreAnswered, ReadsWritten, RefusedByTests, SizeReaches, SlotsByName, StartStays, StartWithoutMasks, StartWordIsStart, TextKeepsWords, VersionKeeps, WriterPuts, WrittenStays};

/// Where the fields of a struct stand: behind a gap that ends at a multiple of the alignment, there; and
/// no two of them share a byte. A further field makes no struct end earlier, and a block is as large.
pub fn layout_law()
    ensures behind_gap { PlaceBehindGap }
    ensures behind_end { PlaceBehindEnd }
    ensures apart { FieldsApart }
    ensures aligned { FieldsAligned }
    ensures grows { EndsGrow }
    ensures size { SizeReaches }
{}

/// A reader of a crate text gives what stands at its place.
pub fn reader_law()
    ensures field { ReaderGets }
    ensures bit { BitReaderGets }
{}

/// A writer of a crate text puts its value at its place, and the word from which a write starts is that
/// of the masks.
pub fn writer_law()
    ensures puts { WriterPuts }
    ensures stays { WrittenStays }
    ensures reads { ReadsWritten }
    ensures start { StartWordIsStart }
    ensures start_stays { StartStays }
    ensures without_masks { StartWithoutMasks }
{}

/// The tests of the typing rules decide whether a crate fits, and with which kind it is refused; the
/// greatest end in each block, cut or not, decides whether all its registers are in the address range; and
/// the last member of a field decides where the others may lie.
pub fn typing_law()
    ensures fits { FitsByTests }
    ensures refused { RefusedByTests }
    ensures ends { EndsDecide }
    ensures cut_ends { CutEndsDecide }
    ensures members { MembersLieLower }
{}

/// Each read of a script has the next answer. The events of a script and the presets before it are accesses
/// below 2^64 of values of their width, and there are at most two events for each statement. The version of
/// the text changes none of it.
pub fn meaning_law()
    ensures places { PlacesAreRegisters }
    ensures answers { ReadsAreAnswered }
    ensures events { EventsInRange }
    ensures few { EventsAreFew }
    ensures presets { PresetsInRange }
    ensures version { VersionKeeps }
{}

/// A script that fits a crate that fits is meant in each of its parts: its events and its presets are those
/// of relations that have no case for what isn't there, and give one list at most.
pub fn fitting_law()
    ensures means { FittingMeans }
    ensures one { MeansOne }
    ensures presets { FittingPresets }
    ensures one_presets { PresetsOne }
{}

/// A script means the same, and has the same presets, wherever alike registers stand at each place: what a
/// register does with words is all that counts of it. A register module whose constants fit keeps words.
pub fn likeness_law()
    ensures words { TextKeepsWords }
    ensures meaning { AlikeMean }
    ensures presets { AlikePreset }
{}

/// What the surface of a crate says of a register call, of slots and of whole scripts is what its modules say,
/// found by walking them; and a call that types is one of the register at the place.
pub fn surface_law()
    ensures modules { CallsByModules }
    ensures there { CallsAreThere }
    ensures slots { SlotsByName }
    ensures faults { FaultsByModules }
{}
