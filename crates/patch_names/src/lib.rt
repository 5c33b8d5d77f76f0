// A prefix taken off the names of a description's elements, as a command of a patch does it: in the tree, at each element that
// the patterns of the command lead to.
#![tactic(auto)]

mod clash;
mod naming;
mod renaming;
mod stripping;

pub use stripping::strip;
