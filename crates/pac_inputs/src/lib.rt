// The files that a command reads, one after the other and each within its limit.
#![tactic(auto)]

mod gathering;

pub use gathering::{Wanted, gather};
