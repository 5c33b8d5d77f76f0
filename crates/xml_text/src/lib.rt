// The parts of a description's text (XML without its document types), one behind another: start
// tags with their attributes, end tags, text, references and comments, as the bytes have them.

#![tactic(auto)]

mod attribute;
mod attributes;
mod fault;
mod gap;
mod kind;
mod mark;
mod name;
mod opening;
mod part;
mod quote;
mod reference;
mod run;
mod tag;

pub use attribute::Attribute;
pub use fault::XmlFault;
pub use opening::after_opening;
pub use part::{Part, one_list_of_parts, split_part};
pub use tag::Tag;
