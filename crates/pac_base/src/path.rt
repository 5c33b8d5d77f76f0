use crate::name::Name;
use crate::seq::Seq;

/// One step of a path: the name of an element, and which member of an array is meant.
#[derive(Debug, Drop)]
pub struct Step {
    /// The written name.
    pub name: Name,
    /// The index of the member, where the step goes into an array.
    pub index: Option<u64>,
}

/// The steps from the device down to an element. The device's own path is empty.
pub type Path = Seq<Step>;
