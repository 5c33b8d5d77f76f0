use pac_base::Width;
use thiserror::Error;

/// A read or a write that was made.
#[derive(Clone, Copy, Debug, PartialEq, Eq)]
pub struct BusAccess {
    /// Whether it was a write.
    pub write: bool,
    /// The address of its first byte.
    pub address: u64,
    /// How wide it was.
    pub width: Width,
    /// What was read or written.
    pub value: u64,
}

/// A word that was put behind a bus before any access, as after a reset.
#[derive(Clone, Copy, Debug, PartialEq, Eq)]
pub struct Preset {
    /// The address of its first byte.
    pub address: u64,
    /// How wide it is.
    pub width: Width,
    /// The word.
    pub value: u64,
}

/// The bus failed at an access. Its count of faults rose, and nothing else changed.
#[derive(Debug, Drop, Error)]
#[error("the bus failed")]
pub struct BusFailed;
