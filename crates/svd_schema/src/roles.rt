use crate::container::Container;
use crate::key::Key;

/// What an element is in the container that it stands in.
#[derive(Clone, Copy, Debug, PartialEq, Eq)]
pub enum Role {
    /// A container itself.
    Holds(Container),
    /// A key whose value is used.
    States(Key),
    /// An element that is passed over with all that it holds.
    PassedOver,
}
