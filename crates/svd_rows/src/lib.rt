// The tree of a device in pure form, elements with a step and keys, and the flat list of rows that it is
// seen as. The public functions are laws: each clause is one statement over all trees.
#![tactic(auto)]

mod laws;

pub use laws::{edits_law, lists_law, look_ups_law, paths_law, ranks_law, rows_law};
