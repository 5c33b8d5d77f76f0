// The words that every layer speaks in: names as a description writes them, texts, the widths of
// registers, paths of steps, spans of bytes, the one answer for want of memory, and the list that
// contracts see as its items.
#![tactic(auto)]

mod back;
mod memory;
mod name;
mod path;
mod seq;
mod span;
mod text;
mod width;

pub use back::Back;
pub use memory::NoMemory;
pub use name::{Name, NameFault};
pub use path::{Path, Step};
pub use seq::Seq;
pub use span::Span;
pub use text::{Text, TextFault};
pub use width::Width;
