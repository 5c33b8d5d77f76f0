// The crate that is emitted for a checked description: as a function of the description's tree, and the code
// that builds it.
#![tactic(auto)]

mod arrays;
mod krate;
mod laws;
mod name;
mod part;
mod register;

pub use krate::{crate_block, crate_form, crate_slots, crate_version};
pub use laws::form_law;
