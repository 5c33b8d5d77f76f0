// What scripts may call and what they mean against the register table of a description: by its flat rows
// alone, with places in words by division and the start of a write bit by bit. The public functions are laws.
#![tactic(auto)]

mod laws;

pub use laws::{member_law, row_law, run_law, start_law, surface_law};
