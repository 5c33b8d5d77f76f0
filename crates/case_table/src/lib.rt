// Tables that give a code to each of a fixed set of words, looked up by binary search. The rows of a
// table stand in rising order of their bytes, which is tested once, where the table is made.
#![tactic(auto)]

mod row;
mod table;

pub use row::CaseRow;
pub use table::{CaseTable, Unsorted};
