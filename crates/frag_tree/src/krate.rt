ghost use Rattle.std.specs.Prelude.{◌≡◌};
ghost use Rattle.frag_tree.specs.Trees.{takes_index};

use crate::block::Block;
use crate::identifier::Identifier;
use pac_base::Seq;

/// The two forms of a crate text.
#[derive(Clone, Copy)]
pub enum Version {
    /// No field takes an index.
    One,
    /// The text begins with `pub const CRATE_TEXT: u32 = 0x2;`, and readers and writers may take one.
    Two,
}

impl Version {
    /// Whether a call of a field may take an index.
    pub fn takes_index(self) -> bool
        ensures { result ≡ takes_index self }
    {
        match self {
            Version::One => false,
            Version::Two => true,
        }
    }
}

/// A crate: its slots, and a block module for each kind of peripheral
/// (`Crate = version 1 or 2, use Slots Block*` of the crate text).
#[derive(Drop)]
pub struct Crate {
    /// The form of its text. In a crate of version 1 no spot is indexed.
    pub version: Version,
    /// The fields of `Peripherals`.
    pub slots: Seq<Slot>,
    /// The block modules at the top.
    pub blocks: Vec<Block>,
    /// The byte at which each item of the text starts, in the order of the text. Empty for a crate
    /// that was not read from a text. No part of the tree.
    pub places: Seq<usize>,
}

/// A peripheral at its address: `pub NAME: Periph<MODULE::RegisterBlock, ADDRESS>,`.
#[derive(Drop)]
pub struct Slot {
    /// The name of the peripheral.
    pub name: Identifier,
    /// The block module of its registers.
    pub block: Identifier,
    /// The address of its first byte.
    pub address: u64,
}
