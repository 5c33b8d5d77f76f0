// The commands of a patch, one after the other, on the tree of a description, up to the first fault.
#![tactic(auto)]

mod applying;

pub use applying::apply;
