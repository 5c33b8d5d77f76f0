// What commands of a patch put into the tree of a description: a walk along a command's patterns with a running count of all
// elements, and a new child behind the children of each element that they lead to.
#![tactic(auto)]

mod growing;
mod maker;
mod walking;

pub use maker::Maker;
pub use walking::walk;
