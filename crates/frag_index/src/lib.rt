// The index of a crate text: each of its blocks once, by number, with what is looked up in it by name, and where the
// fields of its struct stand; each of its registers once, with its readers, its writers and the calls of its values by
// name. Making it takes near linear time; no chain of accessors is walked for it.
#![tactic(auto)]

mod built;
mod calls;
mod index;
mod place;
mod site;
mod unit;

pub use index::Index;
pub use place::{Found, register_at};
pub use site::{Behind, Inner, Site, Within};
pub use unit::Unit;
