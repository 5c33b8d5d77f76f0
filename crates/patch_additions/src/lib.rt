// Additions of elements, as commands of a patch make them in the tree of a description.
#![tactic(auto)]

mod addition;

pub use addition::add;
