// The form of a register module of an emitted crate: its constants, a marker for each field, the calls that
// read and write fields, and those of enumerated values. It knows a register by what a table says of it, and
// nothing of descriptions.
#![tactic(auto)]

mod field;
mod field_values;
mod form;
mod laws;
mod numbers;
mod register;

pub use form::register_form;
pub use laws::{rules_law, words_law};
pub use register::{Field, FieldArray, Register};
