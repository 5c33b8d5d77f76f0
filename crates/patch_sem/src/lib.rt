// What a patch does to a description, seen as its flat list of rows: each command at each of its parents in turn,
// by filters, renamings and appends, up to the first fault. The public functions are laws.
#![tactic(auto)]

mod fault;
mod laws;

pub use fault::PatchFault;
pub use laws::{apart_law, copy_law, deletion_law, renaming_law};
