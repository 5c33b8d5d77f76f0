use pac_base::{Name, Path, Seq, Width};
use svd_values::WriteKind;

/// The row of a register: all that a generated crate says of it.
#[derive(Drop)]
pub struct Row {
    /// The accessors that lead to it.
    pub path: RowPath,
    /// The address of its first byte.
    pub address: u64,
    /// How wide an access to it is.
    pub width: Width,
    /// Whether it can be read.
    pub readable: bool,
    /// Whether it can be written.
    pub writable: bool,
    /// The word after a reset.
    pub reset: u64,
    /// The bits of writable fields on which a written one acts.
    pub one: u64,
    /// The bits of writable fields on which a written zero acts.
    pub zero: u64,
    /// Its fields, in the order of their declaration.
    pub fields: FieldRows,
}

/// The slot of a peripheral, and the accessors from there with their indexes.
#[derive(Drop)]
pub struct RowPath {
    /// The slot.
    pub slot: Name,
    /// The accessors behind it.
    pub steps: Path,
}

/// A field of a register.
#[derive(Drop)]
pub struct FieldRow {
    /// The name of its calls.
    pub name: Name,
    /// The number of its lowest bit, and of the first member's, where it is an array.
    pub offset: u32,
    /// How many bits it has, and each member of an array.
    pub width: u32,
    /// The members, where it is an array.
    pub dim: Option<FieldDim>,
    /// Whether it can be read.
    pub readable: bool,
    /// Whether it can be written.
    pub writable: bool,
    /// What a write does to it.
    pub kind: WriteKind,
    /// The calls that compare what was read with an enumerated value.
    pub is_calls: Calls,
    /// The calls that write an enumerated value.
    pub set_calls: Calls,
}

/// The members of an array of fields: as many as `count`, each `step` bits behind the one before.
#[derive(Clone, Copy)]
pub struct FieldDim {
    /// How many members there are.
    pub count: u64,
    /// How many bits each starts behind the one before.
    pub step: u64,
}

/// The call of an enumerated value.
#[derive(Drop)]
pub struct Call {
    /// Its name.
    pub name: Name,
    /// The value.
    pub value: u64,
}

/// The rows of a description's registers, in document order.
pub type Table = Seq<Row>;

/// The fields of a register, in the order of their declaration.
pub type FieldRows = Seq<FieldRow>;

/// The calls of enumerated values, in the order of the values.
pub type Calls = Seq<Call>;
