// The typing rules of crate texts: the first that a crate breaks, in the order of the rules, and the first item of
// the text that breaks it. Each module is looked at once for each rule, and no chain of accessors is ever walked.
#![tactic(auto)]

mod block;
mod extent;
mod first;
mod inside;
mod layout;
mod measure;
mod named;
mod parts;
mod place;
mod prelude;
mod proxy;
mod range;
mod register;
mod rule;
mod values;

pub use extent::Room;
pub use first::{Broken, first_broken};
pub use inside::Inside;
pub use layout::{Layout, element_room, layout_of};
pub use measure::{Measure, measure_laid, measure_register};
pub use named::{HasName, Named, by_name};
pub use proxy::{
    CallKey, TypeKey, key_of_reader, key_of_values, key_of_writer, numbers_of, truths_of,
};
pub use register::{readers_of, writers_of};
pub use rule::Rule;
