ghost use Rattle.std.specs.Prelude.{◌≡◌};
ghost use Rattle.frag_parse.specs.Depth.{widened};
ghost use Rattle.frag_parse.specs.declared.fault.Refusal.TheVariants as refusal;

use frag_token::fault::Stop;
use pac_base::NoMemory;
use std::alloc::{AllocError, AllocFailed};
use thiserror::Error;

/// Why a text is no crate that is read.
#[derive(Debug, Drop, Error)]
pub enum ParseFault {
    /// The words of the text are those of no crate. The place is the byte of the first word at which
    /// reading stopped, or the end of the text.
    #[error("syntax at byte {at}")]
    Syntax { at: usize },
    /// They are those of a crate whose modules nest deeper than 64. The place is the byte at which the
    /// first such module begins.
    #[error("nesting passes 64 at byte {at}")]
    TooDeep { at: usize },
    /// Memory was wanting.
    #[error("out of memory")]
    Memory,
}

/// Why a reader that counts the depth of modules stopped.
#[derive(Debug, Drop, Error)]
pub(crate) enum Refusal {
    /// Another word is wanted than the one that stands there. So many bytes are left from that word on.
    #[error("another word is wanted")]
    Unfit { left: usize },
    /// A module begins that is too deep. So many bytes are left from its first word on.
    #[error("a module is too deep")]
    TooDeep { left: usize },
    /// Memory was wanting.
    #[error("out of memory")]
    Memory,
}

impl From<AllocError> for Refusal {
    ghost from_gives = { λ _ fault. fault ≡ refusal.Memory };

    fn from(_error: AllocError) -> Refusal {
        Refusal::Memory
    }
}

impl<T: Drop> From<AllocFailed<T>> for Refusal {
    ghost from_gives = { λ _ fault. fault ≡ refusal.Memory };

    fn from(_error: AllocFailed<T>) -> Refusal {
        Refusal::Memory
    }
}

impl From<NoMemory> for Refusal {
    ghost from_gives = { λ _ fault. fault ≡ refusal.Memory };

    fn from(_error: NoMemory) -> Refusal {
        Refusal::Memory
    }
}

impl From<Stop> for Refusal {
    ghost from_gives = { λ stop fault. fault ≡ widened stop };

    fn from(stop: Stop) -> Refusal {
        match stop {
            Stop::Unfit { left } => Refusal::Unfit { left },
            Stop::Memory => Refusal::Memory,
        }
    }
}
