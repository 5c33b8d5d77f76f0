// The laws of register tables.
ghost use Rattle.table_sem.specs.Laws.{CheckedRowsFit, EntriesHaveRows, MemberIsPut, MemberReadsBack, PresetsInRange, RowKeepsWords, RowsHaveEntries, RunInRange, RunIsAnswered, StartIsOne, StartIsStart, StartStays, SurfaceByWalk, SurfaceIsNamed, TypeIsLeast, WrittenIsPut};

/// The word from which a write starts has the bits that the rule says, and is the one word of its width
/// that has them.
pub fn start_law()
    ensures bits { StartIsStart }
    ensures stays { StartStays }
    ensures one { StartIsOne }
{}

/// A value is put into a member of a field that fits, and read there again; the writers of a crate text
/// put it so too. A field's type is the least that holds it.
pub fn member_law()
    ensures puts { MemberIsPut }
    ensures reads { MemberReadsBack }
    ensures text { WrittenIsPut }
    ensures types { TypeIsLeast }
{}

/// Each row of a checked description's table fits, and the register of a row that fits keeps words.
pub fn row_law()
    ensures words { RowKeepsWords }
    ensures checked { CheckedRowsFit }
{}

/// Each read of a script has the next answer. Against rows that fit, the events of a script and the presets
/// before it are accesses below 2^64 of values of their width.
pub fn run_law()
    ensures answers { RunIsAnswered }
    ensures events { RunInRange }
    ensures presets { PresetsInRange }
{}

/// The surface has an entry for each peripheral, cluster and register, by its name, and it is met by a walk
/// of the tree. What it says of a register is what each row of that name says, and wherever it leads to a
/// register there is such a row.
pub fn surface_law()
    ensures names { SurfaceIsNamed }
    ensures rows { RowsHaveEntries }
    ensures entries { EntriesHaveRows }
    ensures walk { SurfaceByWalk }
{}
