// In which order elements are derived, and why a description isn't: found on numbers of elements, before anything is
// made.
#![tactic(auto)]

mod arranged;
mod bases;
mod fault;
mod gone;
mod judging;
mod keys;
mod limits;

pub use arranged::Arranged;
pub use fault::OrderFault;
pub use judging::{Derivable, judged};
