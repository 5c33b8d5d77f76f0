use crate::block::Element;
use crate::identifier::Identifier;

/// An accessor: `pub fn NAME(&self) -> &ELEMENT { BODY }`, with `, n: usize` behind `&self` where it
/// takes an index.
#[derive(Drop)]
pub struct Access {
    /// The name of the accessor.
    pub name: Identifier,
    /// Whether it takes an index.
    pub is_indexed: bool,
    /// What it leads to.
    pub element: Element,
    /// Where that stands.
    pub body: Body,
}

/// Where an accessor finds its element. Offsets and strides are in bytes.
#[derive(Drop)]
pub enum Body {
    /// `&self.FIELD`: at a field of the struct.
    Field {
        /// The name of the field.
        field: Identifier,
    },
    /// `&self.FIELD[n]`: at a member of a field that is an array.
    Member {
        /// The name of the field.
        field: Identifier,
    },
    /// `at(self, OFFSET)`: so far behind the start of the block.
    At {
        /// How far.
        offset: u64,
    },
    /// `at_index(self, OFFSET, STRIDE, COUNT, n)`: so far, and as many strides as the index says.
    AtIndex {
        /// How far the first member stands behind the start of the block.
        offset: u64,
        /// How far one member stands behind the one before.
        stride: u64,
        /// How many members there are.
        count: u64,
    },
}
