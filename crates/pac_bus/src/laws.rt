ghost use Rattle.pac_bus.specs.Laws.{FitsEach, GivesStay, KeepsInTurn, LeavesOthers, ReadsBack};

/// A value that is set in memory is read back, and leaves what stands beside it.
pub fn memory_law()
    ensures back { ReadsBack }
    ensures others { LeavesOthers }
{}

/// What acts keep of what a bus gives, and when their reads fit it.
pub fn acts_law()
    ensures stay { GivesStay }
    ensures turn { KeepsInTurn }
    ensures fits { FitsEach }
{}
