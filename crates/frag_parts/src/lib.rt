// The readers of what stands in the modules of a crate text: slots, register modules, and what stands in
// a block module before the modules inside it.
#![tactic(auto)]

mod access;
mod block;
mod constant;
pub mod head;
pub mod production;
mod reader;
pub mod register;
mod slot;
mod value_call;
mod values;
mod writer;
