// The trees of crate texts and scripts, one struct or enum for each production of their grammars, the
// events of a run, and the printed form of a crate, with the law that no text has the words of two.
#![tactic(auto)]

mod access;
mod block;
mod block_text;
mod crate_text;
mod event;
mod identifier;
mod krate;
mod laws;
mod line;
mod phrase;
mod register;
mod register_text;
mod script;
mod statement;
mod values_text;
mod word;

pub use access::{Access, Body};
pub use block::{Block, Element, FieldType, Module, StructField};
pub use crate_text::{print_crate, print_head, print_top_block};
pub use event::{Event, Events, Said};
pub use identifier::{Identifier, IdentifierFault};
pub use krate::{Crate, Slot, Version};
pub use laws::{crate_law, parts_law, readings_law, words_law};
pub use phrase::{Phrase, receiver, receiver_mut};
pub use register::{
    BitKind, Constant, NumberCall, ReadForm, Reader, RegisterModule, Spot, TruthCall, Values,
    Writable, WriteForm, Writer,
};
pub use script::{Script, ScriptLine};
pub use statement::{Atom, Call, Link, Place, Source, Statement, Value};
pub use word::{kind_word, truth_word, width_word};
