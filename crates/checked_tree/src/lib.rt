// What checking says of the tree of a checked description: facts by recursion on its elements, proved once from the
// faults of its flat rows. The public function is a law.
#![tactic(auto)]

mod laws;

pub use laws::checked_law;
