// What the command `sample` makes of two numbers: the description of as many registers, the script that modifies
// each of them once, and the summary of that script's run.
#![tactic(auto)]

mod description;
mod element;
mod held;
mod numbers;
mod parts;
mod script;
mod source;
mod summary;

pub use description::sample_text;
pub use numbers::number_and_count;
pub use script::sample_script;
pub use source::{sample_source, script_source};
pub use summary::write_summary;
