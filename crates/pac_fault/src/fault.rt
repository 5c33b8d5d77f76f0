use derive_from::DeriveFault;
use dim_expand::DimFault;
use frag_types::{CrateFault, ScriptFault};
use overlap_check::CheckFault;
use pac_base::Text;
use pac_words::BusKind;
use patch_model::CommandFault;
use patch_sem::PatchFault;
use svd_model::Counted;
use svd_reader::SvdFault;
use thiserror::Error;
use yaml_block::BlockFault;

/// Why a call of `pac` didn't do what its words asked for.
#[derive(Debug, Drop, Error)]
pub enum PacFault {
    /// Memory was wanting. Status 1.
    #[error("out of memory")]
    Memory,
    /// The words ask for nothing that there is. Status 2.
    #[error("{0}")]
    Words(WordsFault),
    /// Reading this file failed. Status 3.
    #[error("cannot read a file")]
    Read {
        /// The name of the file as the words have it.
        name: Text,
    },
    /// Writing the output failed. Status 4.
    #[error("cannot write")]
    Write,
    /// The bus failed in a run. Status 5.
    #[error("the bus failed after {done} events")]
    Bus {
        /// How many events were made before.
        done: u64,
    },
    /// The description is refused. Status 6.
    #[error("{0}")]
    Svd(SvdFault),
    /// The patch is no block text. Status 7.
    #[error("{0}")]
    Block(BlockFault),
    /// The patch has no commands. Status 7.
    #[error("{0}")]
    Command(CommandFault),
    /// A command of the patch can't be carried out. Status 7.
    #[error("{0}")]
    Patch(PatchFault),
    /// What elements are derived from is refused. Status 8.
    #[error("{0}")]
    Derive(DeriveFault),
    /// A dimension of the description is refused. Status 8.
    #[error("{0}")]
    Dim(DimFault),
    /// The description as a whole is refused. Status 8.
    #[error("{0}")]
    Check(CheckFault),
    /// The crate text is refused. Status 9.
    #[error("{0}")]
    CrateText(CrateFault),
    /// The script is refused. Status 10.
    #[error("{0}")]
    Script(ScriptFault),
    /// The input passes a limit. Status 11.
    #[error("{0}")]
    Limit(LimitFault),
}

/// Why the words ask for nothing that there is.
#[derive(Debug, Drop, Error)]
pub enum WordsFault {
    /// They aren't those of a command.
    #[error("the words are those of no command")]
    Clap,
    /// Those of `sample` give no number, or no count that it takes.
    #[error("bad number")]
    BadNumber,
    /// The bus that they choose isn't lent.
    #[error("a bus is not there")]
    NoBus {
        /// The kind of the bus.
        kind: BusKind,
    },
}

/// Which limit the input passes.
#[derive(Debug, Drop, Error)]
pub enum LimitFault {
    /// A file is longer than a file may be.
    #[error("a file is longer than {limit} bytes")]
    FileTooLong {
        /// The name of the file as the words have it.
        name: Text,
        /// How many bytes it may have.
        limit: u64,
    },
    /// There are too many parts of a description.
    #[error("too many parts: {count}")]
    TooMany {
        /// What is counted.
        kind: Counted,
        /// How many there are.
        count: u64,
    },
    /// A script has too many statements.
    #[error("{count} statements")]
    ScriptTooLong {
        /// How many there are.
        count: u64,
    },
}
