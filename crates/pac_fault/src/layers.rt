ghost use Rattle.std.specs.Prelude.{◌≡◌};
ghost use Rattle.pac_fault.specs.Layers.{of_block, of_checking, of_commands, of_deriving, of_parsing, of_patching, of_reading, of_script, of_typing, of_unfolding, of_writing};
ghost use Rattle.pac_fault.specs.declared.fault.PacFault.TheVariants.{Memory};

use crate::fault::{LimitFault, PacFault};
use derive_from::DeriveFault;
use dim_expand::DimFault;
use frag_parse::ParseFault;
use frag_types::{CrateFault, ScriptFault};
use overlap_check::CheckFault;
use pac_base::{Back, NoMemory};
use pac_io::SinkFault;
use patch_model::CommandFault;
use patch_sem::PatchFault;
use std::alloc::{AllocError, AllocFailed};
use svd_reader::SvdFault;
use yaml_block::BlockFault;

impl From<AllocError> for PacFault {
    ghost from_gives = { λ _ fault. fault ≡ Memory };

    fn from(_error: AllocError) -> PacFault {
        PacFault::Memory
    }
}

impl<T: Drop> From<AllocFailed<T>> for PacFault {
    ghost from_gives = { λ _ fault. fault ≡ Memory };

    fn from(_error: AllocFailed<T>) -> PacFault {
        PacFault::Memory
    }
}

impl From<NoMemory> for PacFault {
    ghost from_gives = { λ _ fault. fault ≡ Memory };

    fn from(_error: NoMemory) -> PacFault {
        PacFault::Memory
    }
}

impl From<SinkFault> for PacFault {
    ghost from_gives = { λ error fault. fault ≡ of_writing error };

    fn from(error: SinkFault) -> PacFault {
        match error {
            SinkFault::Failed => PacFault::Write,
            SinkFault::Memory => PacFault::Memory,
        }
    }
}

impl From<SvdFault> for PacFault {
    ghost from_gives = { λ error fault. fault ≡ of_reading error };

    fn from(error: SvdFault) -> PacFault {
        match error {
            SvdFault::TooMany { kind, count } => {
                PacFault::Limit(LimitFault::TooMany { kind, count })
            }
            SvdFault::Memory => PacFault::Memory,
            fault => PacFault::Svd(fault),
        }
    }
}

impl From<BlockFault> for PacFault {
    ghost from_gives = { λ error fault. fault ≡ of_block error };

    fn from(error: BlockFault) -> PacFault {
        match error {
            BlockFault::Memory => PacFault::Memory,
            fault => PacFault::Block(fault),
        }
    }
}

impl From<CommandFault> for PacFault {
    ghost from_gives = { λ error fault. fault ≡ of_commands error };

    fn from(error: CommandFault) -> PacFault {
        match error {
            CommandFault::Memory => PacFault::Memory,
            fault => PacFault::Command(fault),
        }
    }
}

impl<S: Drop> From<Back<S, PatchFault>> for PacFault {
    ghost from_gives = { λ error fault. fault ≡ of_patching error.fault };

    fn from(error: Back<S, PatchFault>) -> PacFault {
        match error.fault {
            PatchFault::TooMany { kind, count } => {
                PacFault::Limit(LimitFault::TooMany { kind, count })
            }
            PatchFault::Memory => PacFault::Memory,
            fault => PacFault::Patch(fault),
        }
    }
}

impl<S: Drop> From<Back<S, DeriveFault>> for PacFault {
    ghost from_gives = { λ error fault. fault ≡ of_deriving error.fault };

    fn from(error: Back<S, DeriveFault>) -> PacFault {
        match error.fault {
            DeriveFault::TooMany { kind, count } => {
                PacFault::Limit(LimitFault::TooMany { kind, count })
            }
            DeriveFault::Memory => PacFault::Memory,
            fault => PacFault::Derive(fault),
        }
    }
}

impl<S: Drop> From<Back<S, DimFault>> for PacFault {
    ghost from_gives = { λ error fault. fault ≡ of_unfolding error.fault };

    fn from(error: Back<S, DimFault>) -> PacFault {
        match error.fault {
            DimFault::TooMany { kind, count } => {
                PacFault::Limit(LimitFault::TooMany { kind, count })
            }
            DimFault::Memory => PacFault::Memory,
            fault => PacFault::Dim(fault),
        }
    }
}

impl<S: Drop> From<Back<S, CheckFault>> for PacFault {
    ghost from_gives = { λ error fault. fault ≡ of_checking error.fault };

    fn from(error: Back<S, CheckFault>) -> PacFault {
        match error.fault {
            CheckFault::Memory => PacFault::Memory,
            fault => PacFault::Check(fault),
        }
    }
}

impl From<ParseFault> for PacFault {
    ghost from_gives = { λ error fault. fault ≡ of_parsing error };

    fn from(error: ParseFault) -> PacFault {
        match error {
            ParseFault::Syntax { at } => PacFault::CrateText(CrateFault::Syntax { at }),
            ParseFault::TooDeep { at } => PacFault::CrateText(CrateFault::TooDeep { at }),
            ParseFault::Memory => PacFault::Memory,
        }
    }
}

impl<S: Drop> From<Back<S, CrateFault>> for PacFault {
    ghost from_gives = { λ error fault. fault ≡ of_typing error.fault };

    fn from(error: Back<S, CrateFault>) -> PacFault {
        match error.fault {
            CrateFault::Memory => PacFault::Memory,
            fault => PacFault::CrateText(fault),
        }
    }
}

impl From<ScriptFault> for PacFault {
    ghost from_gives = { λ error fault. fault ≡ of_script error };

    fn from(error: ScriptFault) -> PacFault {
        match error {
            ScriptFault::TooLong { count } => PacFault::Limit(LimitFault::ScriptTooLong { count }),
            ScriptFault::Memory => PacFault::Memory,
            fault => PacFault::Script(fault),
        }
    }
}

impl<S: Drop> From<Back<S, ScriptFault>> for PacFault {
    ghost from_gives = { λ error fault. fault ≡ of_script error.fault };

    fn from(error: Back<S, ScriptFault>) -> PacFault {
        PacFault::from(error.fault)
    }
}

impl<S: Drop> From<Back<S, NoMemory>> for PacFault {
    ghost from_gives = { λ _ fault. fault ≡ Memory };

    fn from(_error: Back<S, NoMemory>) -> PacFault {
        PacFault::Memory
    }
}
