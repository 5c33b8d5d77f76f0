ghost use Rattle.std.specs.Prelude.{◌≡◌};
ghost use Rattle.frag_types.specs.declared.fault.CrateFault.TheVariants as crate_fault;

use pac_base::NoMemory;
use thiserror::Error;

/// Why a text is no crate that fits. A byte is counted from 0.
#[derive(Debug, Drop, Error)]
pub enum CrateFault {
    /// The words of the text are those of no crate. Typing never answers so: the tree was read by then.
    #[error("syntax at byte {at}")]
    Syntax { at: usize },
    /// Modules nest deeper than 64. Typing never answers so.
    #[error("nesting passes 64 at byte {at}")]
    TooDeep { at: usize },
    /// The crate breaks a typing rule. The byte is that of the first item that breaks it, or 0 where the
    /// crate was not read from a text.
    #[error("the item at byte {at} doesn't type")]
    Typing { at: usize, kind: CrateTyping },
    /// Memory was wanting.
    #[error("out of memory")]
    Memory,
}

/// Which kind of typing rule a crate breaks.
#[derive(Clone, Copy, Debug, PartialEq, Eq)]
pub enum CrateTyping {
    /// A module, field, marker or type that is named isn't there.
    UnknownName,
    /// Two items have one name, or one has a name of the prelude.
    DoubleName,
    /// An accessor's body is of another type, a constant of another width, or a direction is missing.
    WrongType,
    /// A count is 0; a constant or the literal of a value doesn't fit its type; a reader's shift isn't below the bits
    /// of the register, or its mask passes them; or a writer's field ends past the register, or its width isn't 1 to
    /// the bits of its value type.
    LiteralRange,
    /// A block or the end of a register passes 2^64 bytes.
    TooLarge,
}

impl From<NoMemory> for CrateFault {
    ghost from_gives = { λ _ fault. fault ≡ crate_fault.Memory };

    fn from(_error: NoMemory) -> CrateFault {
        CrateFault::Memory
    }
}
