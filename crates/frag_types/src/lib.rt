// Typing of crate texts, and of scripts against a crate that fits: a crate or a script that passes is a type of its
// own, and one that is refused comes back: a crate with the kind of the first rule that fails and the byte of the
// item at fault, a script with its first line that doesn't type, and the kind of the leftmost word at which a rule
// fails.
#![tactic(auto)]

mod chain;
mod fault;
mod field;
mod krate;
mod names;
mod place;
mod proxy;
mod script;
mod statement;
mod typed;
mod value;
mod value_type;

pub use fault::{CrateFault, CrateTyping};
pub use frag_script::{ScriptFault, ScriptTyping};
pub use krate::type_crate;
pub use script::type_script;
pub use typed::{TypedCrate, TypedScript};
