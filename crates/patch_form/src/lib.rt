// What a patch is held to: the words and keys of its mappings, the forms of their values, and the first
// demand that a node of block text doesn't meet.
#![tactic(auto)]

mod entry;
pub mod fault;
pub mod form;
mod key;
pub mod mapping;
pub mod naming;
pub mod place;
pub mod table;
mod texts;
mod unmet;
mod value;
pub mod word;
