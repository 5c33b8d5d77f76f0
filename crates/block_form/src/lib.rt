// The form of a block of an emitted crate: which children become fields of its struct, where gaps stand
// between them, and an accessor for each child, with the laws that each accessor leads to the place that its
// child states. It knows children by what they take in memory, and nothing of descriptions.
#![tactic(auto)]

mod accessor;
mod child;
mod field;
mod form;
mod laws;
mod order;
mod placing;

pub use child::{Array, Child, ChildKind};
pub use form::{Form, block_form};
pub use laws::{extent_law, form_law, layout_law, rules_law};
