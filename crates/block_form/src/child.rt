use frag_tree::Identifier;

/// What a block is made of: a register or a block inside it, or an array of them.
#[derive(Drop)]
pub struct Child {
    /// Its accessor name, which is also that of its module and of its field in the struct.
    pub name: Identifier,
    /// Whether it is a register or a block.
    pub kind: ChildKind,
    /// How many bytes behind the start of the block it begins; of an array, its first member.
    pub offset: u64,
    /// How many bytes it takes; of an array, each member. At most 2^64.
    pub size: u128,
    /// Its alignment in bytes.
    pub align: u64,
    /// Its members, where it is an array.
    pub array: Option<Array>,
}

/// What a child is, or each member of an array.
#[derive(Clone, Copy)]
pub enum ChildKind {
    /// A register.
    Register,
    /// A block, with children of its own.
    Block,
}

/// The members of an array.
#[derive(Clone, Copy)]
pub struct Array {
    /// How many there are.
    pub count: u64,
    /// How many bytes one begins behind the one before.
    pub stride: u64,
}
