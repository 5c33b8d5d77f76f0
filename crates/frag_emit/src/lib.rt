// Emission: the crate text of a checked description, which means what the description's register table says.
#![tactic(auto)]

mod emission;
mod emitter;
mod laws;

pub use emission::emit;
pub use emitter::{Emitter, print_text};
pub use laws::headline_law;
