// The graph of derived elements: definitions, and laws that tie it to the derived rows. The public functions are laws.
#![tactic(auto)]

mod laws;

pub use laws::{derived_law, graph_law, places_law};
