ghost use Rattle.std.specs.Prelude.{◌≡◌};
ghost use Rattle.svd_text.specs.declared.fault.TextFault.TheVariants.{Memory};

use pac_base::Span;
use std::alloc::{AllocError, AllocFailed};
use thiserror::Error;

/// Why a text is no tree of elements that can be read.
#[derive(Debug, Drop, Error)]
pub enum TextFault {
    /// The bytes spell no device element; the byte at which that shows.
    #[error("syntax at byte {at}")]
    Syntax {
        /// The byte's place.
        at: u32,
    },
    /// Elements nest deeper than 64; the name in the first start tag that does.
    #[error("nesting passes 64 at bytes {} to {}", span.start, span.end)]
    TooDeep {
        /// The bytes of the name.
        span: Span,
    },
    /// Memory was wanting.
    #[error("out of memory")]
    Memory,
}

impl From<AllocError> for TextFault {
    ghost from_gives = { λ _ fault. fault ≡ Memory };

    fn from(_error: AllocError) -> TextFault {
        TextFault::Memory
    }
}

impl<T: Drop> From<AllocFailed<T>> for TextFault {
    ghost from_gives = { λ _ fault. fault ≡ Memory };

    fn from(_error: AllocFailed<T>) -> TextFault {
        TextFault::Memory
    }
}
