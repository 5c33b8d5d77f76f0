ghost use Rattle.std.specs.Prelude.{◌≡◌};
ghost use Rattle.patch_model.specs.declared.fault.CommandFault.TheVariants.{Memory};

use pac_base::NoMemory;
use thiserror::Error;

/// Why a node became no commands. Lines are counted from 1.
#[derive(Debug, Drop, Error)]
pub enum CommandFault {
    /// A key begins with `_` and is no command.
    #[error("line {line}: unknown command")]
    UnknownCommand {
        /// The line of the key.
        line: u32,
    },
    /// A key of a command is none that a patch knows.
    #[error("line {line}: unknown key")]
    UnknownKey {
        /// The line of the key.
        line: u32,
    },
    /// A value hasn't the form that its command, pattern or key wants.
    #[error("line {line}: bad value")]
    BadValue {
        /// The line of the value; of the entry, where its keys lack one.
        line: u32,
    },
    /// A text in the place of a pattern is none.
    #[error("line {line}: bad pattern")]
    BadPattern {
        /// The line of the text.
        line: u32,
    },
    /// Memory was wanting.
    #[error("out of memory")]
    Memory,
}

impl From<NoMemory> for CommandFault {
    ghost from_gives = { λ _ fault. fault ≡ Memory };

    fn from(_error: NoMemory) -> CommandFault {
        CommandFault::Memory
    }
}
