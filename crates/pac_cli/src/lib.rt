// The top call of `pac`: what the words ask for, the files that they name, what is written, and the
// one line that tells of a fault.
#![tactic(auto)]

mod executing;
mod generating;
mod inputs;
mod laws;
mod listing;
mod numbers;
mod outcome;
mod performing;
mod resolving;
mod run;
mod running;
mod sampling;
mod script;
mod slot;
mod source;
mod telling;

pub use laws::{one_answer, one_decision, refused_numbers, refused_words};
pub use outcome::{Outcome, Told};
pub use pac_words::BusKind;
pub use run::run_pac;
pub use slot::BusSlot;
