ghost use Rattle.svd_keys.specs.Laws.{LeastIsFirst, LeastJoins, FormsAreMeant};

/// The least of faults is the first of least place among them, and of two runs it is the earlier of
/// the least of each.
pub fn least_law()
    ensures first { LeastIsFirst }
    ensures joins { LeastJoins }
{}

/// The forms of values are those that the schema gives.
pub fn forms_law()
    ensures { FormsAreMeant }
{}
