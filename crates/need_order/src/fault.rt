ghost use Rattle.std.specs.Prelude.{◌≡◌};
ghost use Rattle.need_order.specs.declared.fault.NeedFault.TheVariants as need_fault;

use pac_base::NoMemory;
use thiserror::Error;

/// Why there is no order.
#[derive(Debug, Drop, Error)]
pub enum NeedFault {
    /// Needs run in a circle.
    #[error("needs run in a circle")]
    Circle {
        /// The first element with a base that lies on a circle, where there is one.
        first: Option<usize>,
    },
    /// Memory was wanting.
    #[error("out of memory")]
    Memory,
}

impl From<NoMemory> for NeedFault {
    ghost from_gives = { λ _ fault. fault ≡ need_fault.Memory };

    fn from(_error: NoMemory) -> NeedFault {
        NeedFault::Memory
    }
}
