// The words after the program's name, read by `clap` over the table of the commands that are built.
#![tactic(auto)]

mod command;
mod laws;
mod table;

pub use command::{BusKind, Command, Run, Source, command_of};
pub use laws::asks_without_fault;
