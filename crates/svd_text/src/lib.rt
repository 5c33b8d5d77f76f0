// A description's text as the tree of its elements (XML without its document types), with the places
// at which they stand.

#![tactic(auto)]

mod content;
mod element;
mod fault;
mod frame;
mod part;
mod passing;
mod place;
mod reader;
mod said;
mod text;

pub use element::{Element, Source};
pub use fault::TextFault;
pub use said::Said;
pub use text::{one_element, read_element};
