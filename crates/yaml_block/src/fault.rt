ghost use Rattle.std.specs.Prelude.{◌≡◌};
ghost use Rattle.yaml_block.specs.declared.fault.BlockFault.TheVariants.{Memory};

use pac_base::NoMemory;
use std::alloc::{AllocError, AllocFailed};
use thiserror::Error;

/// Why bytes became no node. Lines are counted from 1.
#[derive(Debug, Drop, Error)]
pub enum BlockFault {
    /// The lines up to this one, the first such, are those of no node.
    #[error("line {line}: syntax")]
    Syntax {
        /// The line.
        line: u32,
    },
    /// Mappings and lists nest deeper than 64.
    #[error("line {line}: nesting passes 64")]
    TooDeep {
        /// The line of the entry or item that holds the first such mapping or list.
        line: u32,
    },
    /// A key equals an earlier one of its mapping.
    #[error("line {line}: key used twice")]
    DoubleKey {
        /// The line of the first such key.
        line: u32,
    },
    /// Memory was wanting.
    #[error("out of memory")]
    Memory,
}

impl From<AllocError> for BlockFault {
    ghost from_gives = { λ _ fault. fault ≡ Memory };

    fn from(_error: AllocError) -> BlockFault {
        BlockFault::Memory
    }
}

impl<T: Drop> From<AllocFailed<T>> for BlockFault {
    ghost from_gives = { λ _ fault. fault ≡ Memory };

    fn from(_error: AllocFailed<T>) -> BlockFault {
        BlockFault::Memory
    }
}

impl From<NoMemory> for BlockFault {
    ghost from_gives = { λ _ fault. fault ≡ Memory };

    fn from(_error: NoMemory) -> BlockFault {
        BlockFault::Memory
    }
}
