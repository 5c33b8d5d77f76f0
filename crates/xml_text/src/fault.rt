ghost use Rattle.std.specs.Prelude.{◌≡◌};
ghost use Rattle.xml_text.specs.declared.fault.XmlFault.TheVariants.{Memory, Syntax};

use std::alloc::{AllocError, AllocFailed};
use thiserror::Error;

/// Why no part was read.
#[derive(Debug, Drop, Error)]
pub enum XmlFault {
    /// No part begins the text.
    #[error("not the text of a description")]
    Syntax,
    /// Memory was wanting.
    #[error("out of memory")]
    Memory,
}

impl From<AllocError> for XmlFault {
    ghost from_gives = { λ _ fault. fault ≡ Memory };

    fn from(_error: AllocError) -> XmlFault {
        XmlFault::Memory
    }
}

impl<T: Drop> From<AllocFailed<T>> for XmlFault {
    ghost from_gives = { λ _ fault. fault ≡ Memory };

    fn from(_error: AllocFailed<T>) -> XmlFault {
        XmlFault::Memory
    }
}
