// The words of a crate text: how bytes split into words, lines that are put together of pieces, and
// readings of words, which are the productions of a grammar with the reader of each. Beside the next
// word of a text the public functions are laws: each clause is one statement over all texts, lines
// or readings.
#![tactic(auto)]

mod laws;
mod word;

pub use laws::{lines_law, readings_law};
pub use word::{is_comment, next_word};
