// Running scripts against crate texts over buses: a script is put into plain numbers against its crate, and
// then run step by step, one access of the bus a step, without memory.
#![tactic(auto)]

mod calls;
mod course;
mod deed;
mod keys;
mod lower;
mod names;
mod plan;
mod preset;
mod put;
mod ready;
mod role;
mod running;
mod script;
mod stage;
mod term;
mod word;

pub use plan::prepare;
pub use ready::Ready;
pub use role::Role;
pub use running::{begin, run, step};
pub use stage::{BusFault, Running, Stage};
