use pac_base::{Seq, Width};
use svd_values::{ReadAction, WriteKind};

/// What a bus that stands for a device has to know of one of its registers.
#[derive(Debug, Drop)]
pub struct DevRow {
    /// The address of its first byte.
    pub address: u64,
    /// How wide an access to it is.
    pub width: Width,
    /// Whether it can be read.
    pub readable: bool,
    /// Whether it can be written.
    pub writable: bool,
    /// Its fields, in the order of their declaration.
    pub fields: DevFields,
}

/// What it has to know of a field.
#[derive(Clone, Copy, Debug)]
pub struct DevField {
    /// The bits that it covers.
    pub mask: u64,
    /// Whether it can be read.
    pub readable: bool,
    /// Whether it can be written.
    pub writable: bool,
    /// What a write does to it.
    pub kind: WriteKind,
    /// What a read does to it, where it does something.
    pub action: Option<ReadAction>,
}

/// The registers of a device.
pub type DevRows = Seq<DevRow>;

/// The fields of a register, in the order of their declaration.
pub type DevFields = Seq<DevField>;
