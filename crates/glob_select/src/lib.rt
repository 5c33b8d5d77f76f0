// The patterns of patches: which texts are patterns, and which names they match. A pattern keeps its
// text, and a name is matched without memory, in time of at most the product of the two lengths.
#![tactic(auto)]

mod alternative;
mod matching;
mod member;
mod naming;
mod pattern;
mod token;

pub use pattern::{Pattern, PatternFault};
