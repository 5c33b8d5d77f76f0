use pac_base::Path;
use thiserror::Error;

/// Which faults are asked for.
#[derive(Clone, Copy, Debug, PartialEq, Eq)]
pub enum Policy {
    /// All but overlaps.
    Loose,
    /// All.
    Strict,
}

/// Why a description was refused. Paths have the written names of the elements,
/// and those of overlaps the indexes of members: of fields at the field alone.
#[derive(Debug, Drop, Error)]
pub enum CheckFault {
    /// A register's size is 0 or above 64.
    #[error("size is not 1 to 64")]
    BadWidth { path: Path },
    /// A member of a peripheral or cluster starts at 2^64 or above, or a member of a register ends above it.
    #[error("address passes 64 bits")]
    AddressRange { path: Path },
    /// The address of a member of a register is no multiple of the register's width in bytes.
    #[error("address is not a multiple of the width")]
    Misaligned { path: Path },
    /// A field ends past its register's width, or has no bit.
    #[error("field passes the register")]
    FieldRange { path: Path },
    /// Two members of fields of one register share a bit, and are both readable or both writable.
    #[error("fields overlap")]
    FieldOverlap { first: Path, second: Path },
    /// Two members of registers of one peripheral share a byte, and no alternate says that they may.
    #[error("registers overlap")]
    RegisterOverlap { first: Path, second: Path },
    /// Two siblings have one accessor name.
    #[error("two elements have one accessor name")]
    NameClash { first: Path, second: Path },
    /// Memory was wanting.
    #[error("out of memory")]
    Memory,
}
