// What deriving makes of the flat rows of a description, and why it may be refused: definitions, and laws above them.
// The public functions are laws.
#![tactic(auto)]

mod laws;

pub use laws::{circle_law, fault_law, levels_law, paths_law, undone_law};
