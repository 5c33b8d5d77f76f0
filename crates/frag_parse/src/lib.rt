// The reader of crate texts: from bytes to the tree of the crate that they spell, exactly. The reader
// of scripts stands below and is handed on.
#![tactic(auto)]

mod fault;
mod krate;
mod module;
mod opening;
mod survey;

pub use fault::ParseFault;
pub use frag_script::{ScriptFault, ScriptTyping, one_script, parse_script};
pub use krate::parse_crate;
