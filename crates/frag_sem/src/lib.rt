// What crate texts mean in the project's fragment of Rust: where the registers of a struct stand, which
// crates and scripts fit, and the events of a script against a crate. The public functions are laws: each
// clause is one statement over all of what it speaks of.
#![tactic(auto)]

mod laws;

pub use laws::{
    layout_law, likeness_law, meaning_law, reader_law, surface_law, typing_law, writer_law,
};
