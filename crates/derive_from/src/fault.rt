ghost use Rattle.std.specs.Prelude.{◌≡◌};
ghost use Rattle.derive_from.specs.declared.fault.DeriveFault.TheVariants as derive_fault;

use pac_base::{NoMemory, Path};
use svd_model::Counted;
use thiserror::Error;

/// Why a description isn't derived. The first that stands is told, in this order. Paths have the written names down to
/// an element; a set of enumerated values is told by its field.
#[derive(Debug, Drop, Error)]
pub enum DeriveFault {
    /// An element states a source, and the names lead to no element of its kind: the first one, in document order.
    #[error("derivedFrom is missing")]
    MissingParent {
        /// The element.
        path: Path,
        /// The names that it gives of its source.
        name: Path,
    },
    /// Elements depend on one another in a circle, an element on its source and on its children: the first one on a
    /// circle that states a source.
    #[error("derivedFrom runs in a circle")]
    DeriveCycle {
        path: Path,
    },
    /// A derived path has more than 64 steps: the first peripheral below which one has.
    #[error("clusters nest deeper than 64")]
    TooDeep {
        path: Path,
    },
    /// More than 1,048,576 derived elements; `count` is 2^64 - 1 where it is greater.
    #[error("too many parts: {count}")]
    TooMany {
        kind: Counted,
        count: u64,
    },
    /// Memory was wanting.
    #[error("out of memory")]
    Memory,
}

impl From<NoMemory> for DeriveFault {
    ghost from_gives = { λ _ fault. fault ≡ derive_fault.Memory };

    fn from(_error: NoMemory) -> DeriveFault {
        DeriveFault::Memory
    }
}
