// What commands of a patch do to the tree of a description: a walk along a command's patterns, and an edit of the children of
// each element that they lead to.
#![tactic(auto)]

mod counting;
mod deletion;
mod edit;
mod opening;
mod walking;

pub use counting::{one_more, without};
pub use deletion::delete;
pub use edit::Edit;
pub use opening::{matches_item, matches_one, open};
pub use walking::walk;
