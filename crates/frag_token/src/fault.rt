ghost use Rattle.std.specs.Prelude.{◌≡◌};
ghost use Rattle.frag_token.specs.declared.fault.Stop.TheVariants as stop;

use pac_base::NoMemory;
use std::alloc::{AllocError, AllocFailed};
use thiserror::Error;

/// Why reading stopped.
#[derive(Debug, Drop, Error)]
pub enum Stop {
    /// Another word is wanted than the one that stands there. So many bytes are left from that word on.
    #[error("another word is wanted")]
    Unfit { left: usize },
    /// Memory was wanting.
    #[error("out of memory")]
    Memory,
}

impl From<AllocError> for Stop {
    ghost from_gives = { λ _ fault. fault ≡ stop.Memory };

    fn from(_error: AllocError) -> Stop {
        Stop::Memory
    }
}

impl<T: Drop> From<AllocFailed<T>> for Stop {
    ghost from_gives = { λ _ fault. fault ≡ stop.Memory };

    fn from(_error: AllocFailed<T>) -> Stop {
        Stop::Memory
    }
}

impl From<NoMemory> for Stop {
    ghost from_gives = { λ _ fault. fault ≡ stop.Memory };

    fn from(_error: NoMemory) -> Stop {
        Stop::Memory
    }
}
