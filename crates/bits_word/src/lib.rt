// Words of 8, 16, 32 and 64 bits, and the places of fields in them: reading a place, writing one, the
// mask of one, and the word from which a write starts.
#![tactic(auto)]

mod place;
mod word;

pub use word::Word;
