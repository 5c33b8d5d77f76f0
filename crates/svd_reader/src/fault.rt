ghost use Rattle.std.specs.Prelude.{◌≡◌};
ghost use Rattle.svd_reader.specs.declared.fault.SvdFault.TheVariants.{Memory};

use pac_base::{NoMemory, Span, Text};
use std::alloc::{AllocError, AllocFailed};
use svd_keys::BadKind;
use svd_model::Counted;
use thiserror::Error;

/// Why bytes are no description. Spans are bytes of the text.
#[derive(Debug, Drop, Error)]
pub enum SvdFault {
    /// The bytes spell no device element; the byte at which that shows.
    #[error("syntax at byte {at}")]
    Syntax {
        /// The byte's place.
        at: u32,
    },
    /// Elements nest deeper than 64; the name in the first start tag that does.
    #[error("nesting passes 64 at bytes {} to {}", span.start, span.end)]
    TooDeep {
        /// The bytes of the name.
        span: Span,
    },
    /// A container or key holds an element that may not stand in it.
    #[error("unknown element at bytes {} to {}", span.start, span.end)]
    UnknownElement {
        /// The name in its start tag.
        span: Span,
    },
    /// A key, or a container that may stand once, stands again in one element.
    #[error("second element at bytes {} to {}", span.start, span.end)]
    DoubleElement {
        /// The name in the second's start tag.
        span: Span,
    },
    /// A sibling before has the same written name.
    #[error("name used twice at bytes {} to {}", span.start, span.end)]
    DoubleName {
        /// The second's name.
        span: Span,
    },
    /// A value isn't in its form.
    #[error("bad value at bytes {} to {}", span.start, span.end)]
    BadValue {
        /// The value as it is written.
        span: Span,
        /// The form that it hasn't.
        kind: BadKind,
    },
    /// An element isn't there that must be.
    #[error("an element is missing in the element at bytes {} to {}", span.start, span.end)]
    MissingElement {
        /// The name in the start tag of the element that lacks it.
        span: Span,
        /// The name of the element that is missing.
        key: Text,
    },
    /// There are more than 1,048,576 peripherals, clusters, registers, fields and enumerated values.
    #[error("too many elements: {count}")]
    TooMany {
        /// What is counted.
        kind: Counted,
        /// How many there are.
        count: u64,
    },
    /// Memory was wanting.
    #[error("out of memory")]
    Memory,
}

impl From<AllocError> for SvdFault {
    ghost from_gives = { λ _ fault. fault ≡ Memory };

    fn from(_error: AllocError) -> SvdFault {
        SvdFault::Memory
    }
}

impl<T: Drop> From<AllocFailed<T>> for SvdFault {
    ghost from_gives = { λ _ fault. fault ≡ Memory };

    fn from(_error: AllocFailed<T>) -> SvdFault {
        SvdFault::Memory
    }
}

impl From<NoMemory> for SvdFault {
    ghost from_gives = { λ _ fault. fault ≡ Memory };

    fn from(_error: NoMemory) -> SvdFault {
        SvdFault::Memory
    }
}
