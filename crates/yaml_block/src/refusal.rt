ghost use Rattle.std.specs.Prelude.{◌≡◌};
ghost use Rattle.yaml_block.specs.declared.refusal.Refusal.TheVariants.{Memory};

use pac_base::NoMemory;
use std::alloc::{AllocError, AllocFailed};

/// Why a part of a line was not read.
#[derive(Debug, Drop)]
pub enum Refusal {
    /// It has not the form.
    NotInForm,
    /// Memory was wanting.
    Memory,
}

impl From<AllocError> for Refusal {
    ghost from_gives = { λ _ fault. fault ≡ Memory };

    fn from(_error: AllocError) -> Refusal {
        Refusal::Memory
    }
}

impl<T: Drop> From<AllocFailed<T>> for Refusal {
    ghost from_gives = { λ _ fault. fault ≡ Memory };

    fn from(_error: AllocFailed<T>) -> Refusal {
        Refusal::Memory
    }
}

impl From<NoMemory> for Refusal {
    ghost from_gives = { λ _ fault. fault ≡ Memory };

    fn from(_error: NoMemory) -> Refusal {
        Refusal::Memory
    }
}
