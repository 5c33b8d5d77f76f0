// The elements of a description by numbers, in document order, and the source of each: names are followed by an index,
// and not by going through siblings.
#![tactic(auto)]

mod device;
mod entry;
mod finding;
mod graph;
mod index;
mod laws;
mod listing;
mod source;

pub use device::{Sourced, sources_of};
pub use entry::{Entry, Kind, entry_at};
pub use finding::{SourceFault, sources};
pub use graph::needs_of;
pub use index::Index;
pub use laws::numbers_law;
pub use listing::entries_of;
