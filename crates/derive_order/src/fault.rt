ghost use Rattle.std.specs.Prelude.{◌≡◌};
ghost use Rattle.derive_order.specs.declared.fault.OrderFault.TheVariants as order_fault;

use pac_base::NoMemory;
use thiserror::Error;

/// Why a description isn't derived. Elements are told by their numbers, as [`sources_of`](derive_sources::sources_of)
/// lists them.
#[derive(Debug, Drop, Error)]
pub enum OrderFault {
    /// An element states a source and has none: the first one.
    #[error("the source of element {number} is missing")]
    Missing { number: usize },
    /// Elements depend on one another in a circle: the first one on a circle that states a source.
    #[error("element {number} is derived from itself")]
    Cycle { number: usize },
    /// Elements nest too deep: the first peripheral below which a derived path has more than 64 steps.
    #[error("elements below element {number} nest too deep")]
    TooDeep { number: usize },
    /// More than 1,048,576 derived elements; `count` is 2^64 - 1 where it is greater.
    #[error("too many elements: {count}")]
    TooMany { count: u64 },
    /// Memory was wanting.
    #[error("out of memory")]
    Memory,
}

impl From<NoMemory> for OrderFault {
    ghost from_gives = { λ _ fault. fault ≡ order_fault.Memory };

    fn from(_error: NoMemory) -> OrderFault {
        OrderFault::Memory
    }
}
