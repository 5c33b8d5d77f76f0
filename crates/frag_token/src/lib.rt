// What the reader of crate texts takes at once: fixed texts, single words, names, numbers, the places of
// fields, and lists.
#![tactic(auto)]

pub mod fault;
pub mod list;
pub mod numeral;
pub mod sign;
pub mod spot;
pub mod starts;
pub mod token;
pub mod word;
