// Names in the Rust text of a generated crate: what an identifier is, which words are keywords, and which names the
// crate's prelude takes.
#![tactic(auto)]

// Rows of a table of words, which stand in rising order.
macro_rules! rows {
    ($($word:literal),* $(,)?) => { [$(CaseRow { word: $word, code: 0 }),*] };
}

mod identifier;
mod keyword;
mod laws;
mod prelude;
mod table;

pub use identifier::is_identifier;
pub use keyword::is_keyword;
pub use laws::taken_law;
pub use prelude::is_prelude_name;
