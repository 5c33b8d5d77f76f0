// What a derived device is built of: the elements of a description by reference, and what each takes from its source; and
// the device that is made of them.
#![tactic(auto)]

mod block;
mod children;
mod copies;
mod derived;
mod device;
mod field;
mod keys;
mod listing;
mod names;
mod own;
mod settled;
mod table;
mod value;

pub use children::merged;
pub use derived::built;
pub use keys::{Keys, keys_of};
pub use listing::owns_of;
pub use own::Own;
pub use settled::{Settled, taken_from};
