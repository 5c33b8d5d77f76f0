// The commands of a patch: of a node that meets its demands the list of its commands, each with the
// patterns that lead to where it acts.
#![tactic(auto)]

mod act;
mod added;
mod deed;
mod fault;
mod kept;
mod laws;
mod leaf;
mod listed;
mod opened;
mod own;
mod patch;
mod refusal;

pub use act::{Act, Addition, Additions, Command, Commands, Keys, Patterns};
pub use fault::CommandFault;
pub use laws::{one_reading, patch_law};
pub use patch::commands;
