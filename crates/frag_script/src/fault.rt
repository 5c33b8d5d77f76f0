ghost use Rattle.std.specs.Prelude.{◌≡◌};
ghost use Rattle.frag_script.specs.declared.fault.LineFault.TheVariants as line_fault;
ghost use Rattle.frag_script.specs.declared.fault.ScriptFault.TheVariants as script_fault;

use pac_base::NoMemory;
use std::alloc::{AllocError, AllocFailed};
use thiserror::Error;

/// Why a text is no script, or a script doesn't fit a crate.
#[derive(Debug, Drop, Error)]
pub enum ScriptFault {
    /// The line, counted from 1, is no statement.
    #[error("line {line} is no statement")]
    Syntax { line: u32 },
    /// There are so many statements, more than 65,536.
    #[error("{count} statements")]
    TooLong { count: u64 },
    /// The statement on the line, counted from 1, doesn't type.
    #[error("the statement on line {line} doesn't type")]
    Typing { line: u32, kind: ScriptTyping },
    /// Memory was wanting.
    #[error("out of memory")]
    Memory,
}

/// Which rule of typing a statement breaks.
#[derive(Clone, Copy, Debug, PartialEq, Eq)]
pub enum ScriptTyping {
    /// A place begins with no slot, or a source with no bound name.
    NoSuchName,
    /// There is no such accessor, field, method or register call.
    NoSuchCall,
    /// A value of another type, or one too many or too few, is wanted.
    WrongType,
    /// An index isn't below the count.
    IndexRange,
    /// A number doesn't fit its type.
    LiteralRange,
    /// A name is bound already, or is a slot, `r` or `w`.
    Rebound,
}

impl From<NoMemory> for ScriptFault {
    ghost from_gives = { λ _ fault. fault ≡ script_fault.Memory };

    fn from(_error: NoMemory) -> ScriptFault {
        ScriptFault::Memory
    }
}

/// Why a line holds neither nothing nor a statement.
#[derive(Debug, Drop, Error)]
pub(crate) enum LineFault {
    /// The words are those of no statement.
    #[error("not a statement")]
    NotAStatement,
    /// Memory was wanting.
    #[error("out of memory")]
    Memory,
}

impl From<AllocError> for LineFault {
    ghost from_gives = { λ _ fault. fault ≡ line_fault.Memory };

    fn from(_error: AllocError) -> LineFault {
        LineFault::Memory
    }
}

impl<T: Drop> From<AllocFailed<T>> for LineFault {
    ghost from_gives = { λ _ fault. fault ≡ line_fault.Memory };

    fn from(_error: AllocFailed<T>) -> LineFault {
        LineFault::Memory
    }
}

impl From<NoMemory> for LineFault {
    ghost from_gives = { λ _ fault. fault ≡ line_fault.Memory };

    fn from(_error: NoMemory) -> LineFault {
        LineFault::Memory
    }
}
