// The crate that is emitted for a checked description fits: the rules of typing hold of it. The public function is a
// law.
#![tactic(auto)]

mod laws;

pub use laws::fits_law;
