// The reader of scripts: from bytes to statements, exactly, with the line of what is no statement.
#![tactic(auto)]

mod chain;
mod closure;
mod fault;
mod field;
mod fixed;
mod line;
mod number;
mod part;
mod place;
mod script;
mod statement;
mod token;
mod value;

pub use fault::{ScriptFault, ScriptTyping};
pub use script::{one_script, parse_script};
