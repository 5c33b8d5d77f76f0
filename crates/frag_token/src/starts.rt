use crate::token::left_at;
use pac_base::{NoMemory, Seq};
use std::alloc::Global;

/// The bytes at which the items of a text start, as they are met.
#[derive(Drop)]
pub struct Starts {
    total: usize,
    places: Seq<usize>,
}

impl Starts {
    /// No item of the text was met yet.
    pub fn new(alloc: Global, text: &[u8]) -> Starts {
        Starts {
            total: text.len(),
            places: Seq::new(alloc),
        }
    }

    /// An item starts with the first word of what is left of the text.
    pub fn note(&mut self, left: &[u8]) -> Result<(), NoMemory> {
        self.places.push(self.total.saturating_sub(left_at(left)))
    }

    /// The bytes, in the order of the text.
    pub fn into_places(self) -> Seq<usize> {
        self.places
    }
}
