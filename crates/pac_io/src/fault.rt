ghost use Rattle.pac_io.specs.declared.fault.FilesFault.TheVariants as files_fault;
ghost use Rattle.pac_io.specs.declared.fault.SinkFault.TheVariants as sink_fault;
ghost use Rattle.std.specs.Prelude.{◌≡◌};

use pac_base::NoMemory;
use std::alloc::{AllocError, AllocFailed};
use thiserror::Error;

/// Why a file wasn't read.
#[derive(Debug, Drop, Error)]
pub enum FilesFault {
    /// The file isn't there, or reading it failed. The count of faults rose.
    #[error("reading failed")]
    Failed,
    /// The file has more bytes than the limit that was given.
    #[error("more than {limit} bytes")]
    TooLong {
        /// The limit, in bytes.
        limit: u64,
    },
    /// Memory was wanting.
    #[error("out of memory")]
    Memory,
}

impl From<AllocError> for FilesFault {
    ghost from_gives = { λ _ fault. fault ≡ files_fault.Memory };

    fn from(_error: AllocError) -> FilesFault {
        FilesFault::Memory
    }
}

impl<T: Drop> From<AllocFailed<T>> for FilesFault {
    ghost from_gives = { λ _ fault. fault ≡ files_fault.Memory };

    fn from(_error: AllocFailed<T>) -> FilesFault {
        FilesFault::Memory
    }
}

/// Why bytes weren't all written.
#[derive(Debug, Drop, Error)]
pub enum SinkFault {
    /// Writing failed. The count of faults rose.
    #[error("writing failed")]
    Failed,
    /// Memory was wanting.
    #[error("out of memory")]
    Memory,
}

impl From<AllocError> for SinkFault {
    ghost from_gives = { λ _ fault. fault ≡ sink_fault.Memory };

    fn from(_error: AllocError) -> SinkFault {
        SinkFault::Memory
    }
}

impl<T: Drop> From<AllocFailed<T>> for SinkFault {
    ghost from_gives = { λ _ fault. fault ≡ sink_fault.Memory };

    fn from(_error: AllocFailed<T>) -> SinkFault {
        SinkFault::Memory
    }
}

impl From<NoMemory> for SinkFault {
    ghost from_gives = { λ _ fault. fault ≡ sink_fault.Memory };

    fn from(_error: NoMemory) -> SinkFault {
        SinkFault::Memory
    }
}
