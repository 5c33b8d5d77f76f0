// Why a call of `pac` didn't do what its words asked for: the faults, the exit status of each, and the
// line that tells of it.
#![tactic(auto)]

mod count_text;
mod fault;
mod fault_text;
mod fragment_text;
mod layers;
mod patch_text;
mod status;

pub use fault::{LimitFault, PacFault, WordsFault};
pub use fault_text::fault_line;
pub use status::status_of;
