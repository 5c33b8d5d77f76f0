use crate::props::Props;
use crate::sibling::Sibling;
use indexmap::IndexMap;
use pac_base::{Name, Path, Text};
use svd_values::{Access, DimIndex, Place, ReadAction, Usage, WriteKind};

/// A device: its name, the properties that hold in it, and its peripherals in the order of their
/// declaration (CMSIS-SVD 1.3, `device`).
#[derive(Drop)]
pub struct Device {
    /// The name of the device.
    pub name: Text,
    /// The properties that hold where nothing below states them.
    pub props: Props,
    /// The peripherals by their names.
    pub peripherals: IndexMap<Sibling, Peripheral>,
}

/// How often an element stands, and at which steps (CMSIS-SVD 1.3, `dimElementGroup`).
#[derive(Drop)]
pub struct Dim {
    /// How many members there are (`dim`).
    pub count: Option<u64>,
    /// How far one member stands behind the one before (`dimIncrement`): in bytes, of a field in bits.
    pub step: Option<u64>,
    /// The indexes of the members (`dimIndex`).
    pub index: Option<DimIndex>,
}

/// A peripheral: a block of registers at an address (CMSIS-SVD 1.3, `peripheral`).
#[derive(Drop)]
pub struct Peripheral {
    /// The element from which it is derived.
    pub derived: Option<Path>,
    /// How often it stands.
    pub dim: Dim,
    /// The address of its first byte.
    pub base: u128,
    /// The properties that it states.
    pub props: Props,
    /// Its registers and clusters, in the order of their declaration.
    pub children: Vec<Item>,
}

/// A register or cluster under its key.
#[derive(Drop)]
#[cycle(tree)]
pub struct Item {
    /// The key among its siblings.
    pub key: Sibling,
    /// What stands under it.
    pub child: Child,
}

/// What may stand in a peripheral or cluster.
#[derive(Drop)]
#[cycle(tree)]
pub enum Child {
    /// A group of registers.
    Cluster(Cluster),
    /// A register.
    Register(Register),
}

/// A group of registers and further clusters (CMSIS-SVD 1.3, `cluster`).
#[derive(Drop)]
#[cycle(tree)]
pub struct Cluster {
    /// The element from which it is derived.
    pub derived: Option<Path>,
    /// How often it stands.
    pub dim: Dim,
    /// How many bytes behind the start of its parent it starts.
    pub offset: u128,
    /// The cluster whose place it may share.
    pub alternate: Option<Name>,
    /// The properties that it states.
    pub props: Props,
    /// Its registers and clusters, in the order of their declaration.
    pub children: Vec<Item>,
}

/// A register (CMSIS-SVD 1.3, `register`).
#[derive(Drop)]
pub struct Register {
    /// The element from which it is derived.
    pub derived: Option<Path>,
    /// How often it stands.
    pub dim: Dim,
    /// How many bytes behind the start of its parent it starts.
    pub offset: u128,
    /// The register whose place it may share.
    pub alternate: Option<Name>,
    /// The group of registers that may share its place.
    pub group: Option<Name>,
    /// The properties that it states.
    pub props: Props,
    /// What a write does to it.
    pub kind: Option<WriteKind>,
    /// What a read does to it.
    pub action: Option<ReadAction>,
    /// Its fields by their names, in the order of their declaration.
    pub fields: IndexMap<Sibling, Field>,
}

/// A field of a register (CMSIS-SVD 1.3, `field`).
#[derive(Drop)]
pub struct Field {
    /// The element from which it is derived.
    pub derived: Option<Path>,
    /// How often it stands.
    pub dim: Dim,
    /// Which bits of the register it covers.
    pub place: Place,
    /// Which accesses it takes.
    pub access: Option<Access>,
    /// What a write does to it.
    pub kind: Option<WriteKind>,
    /// What a read does to it.
    pub action: Option<ReadAction>,
    /// Its sets of enumerated values, in the order of their declaration.
    pub values: Vec<Values>,
}

/// A set of enumerated values (CMSIS-SVD 1.3, `enumeratedValues`).
#[derive(Drop)]
pub struct Values {
    /// The set from which it is derived.
    pub derived: Option<Path>,
    /// The name of the set.
    pub name: Option<Name>,
    /// For which direction it holds; for both where nothing is stated.
    pub usage: Option<Usage>,
    /// The values, in the order of their declaration.
    pub items: Vec<Variant>,
}

/// An enumerated value (CMSIS-SVD 1.3, `enumeratedValue`).
#[derive(Drop)]
pub struct Variant {
    /// Its name, which may hold any printable ASCII.
    pub name: Text,
    /// The number that it names. One without a number is the default.
    pub value: Option<u64>,
}
