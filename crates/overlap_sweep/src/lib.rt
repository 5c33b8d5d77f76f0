// Overlaps of the members of registers, and of those of fields, found in one sweep in document order.
#![tactic(auto)]

mod field;
mod overlap;
mod search;
mod spot;
mod walk;

pub use overlap::{Overlap, Shared, first_overlap};
