// Children of an element that become one array, as a command of a patch has it: what that is in the tree of a description,
// child by child, that it is what the command does among the flat rows, and the command itself.
#![tactic(auto)]

mod arranging;
mod checking;
mod laws;
mod making;
mod member;
mod parting;
mod resembling;
mod sameness;
mod shelf;

pub use arranging::array;
pub use laws::{array_law, likeness_law};
