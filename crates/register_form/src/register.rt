use frag_tree::{BitKind, Identifier, NumberCall};
use pac_base::{Seq, Width};

/// What a register module is made of.
#[derive(Drop)]
pub struct Register {
    /// The accessor name of the register, which is that of its module.
    pub name: Identifier,
    /// How wide an access is.
    pub word: Width,
    /// Whether it can be read.
    pub readable: bool,
    /// Whether it can be written.
    pub writable: bool,
    /// The word after a reset.
    pub reset: u64,
    /// The bits of writable fields on which a written one acts.
    pub one: u64,
    /// The bits of writable fields on which a written zero acts.
    pub zero: u64,
    /// Its fields, as they are declared.
    pub fields: Seq<Field>,
}

/// A field of a register, or an array of them.
#[derive(Drop)]
pub struct Field {
    /// The name of the calls that read and write it.
    pub name: Identifier,
    /// The name of its marker.
    pub marker: Identifier,
    /// The number of its lowest bit; of an array, that of its first member.
    pub offset: u64,
    /// How many bits it has; of an array, each member.
    pub bits: u64,
    /// Its members, where it is an array.
    pub array: Option<FieldArray>,
    /// Whether it can be read.
    pub readable: bool,
    /// Whether it can be written.
    pub writable: bool,
    /// What a written bit does, where the field has one bit.
    pub kind: BitKind,
    /// The calls that compare what was read with an enumerated value.
    pub tests: Seq<NumberCall>,
    /// The calls that write an enumerated value.
    pub sets: Seq<NumberCall>,
}

/// The members of an array of fields.
#[derive(Clone, Copy)]
pub struct FieldArray {
    /// How many there are.
    pub count: u64,
    /// How many bits one lies above the one before.
    pub step: u64,
}
