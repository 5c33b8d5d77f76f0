// When a crate text stands for a description, as the emitted one does: slot by slot, block by block and register
// by register. Its surface, its meanings and its presets are then those of the register table. The public
// functions are laws.
#![tactic(auto)]

mod laws;

pub use laws::{emitted_law, place_law, script_law, surface_law, worked_law};
