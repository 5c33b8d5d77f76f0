ghost use Rattle.yaml_block.specs.Trees.{Tree};
ghost use Rattle.patch_form.specs.Unmet.{IsFirstUnmet};
ghost use Rattle.patch_model.specs.Answers.{IsRefused};
ghost use Rattle.patch_form.specs.Mappings.{patch_demands};

use crate::fault::CommandFault;
use patch_form::fault::{Fault, FaultKind};

/// The answer that a fault is.
pub fn refusal(fault: Fault) -> CommandFault
    ensures { (tree : Tree) → IsFirstUnmet (patch_demands tree) fault.line fault.kind → IsRefused tree result }
{
    let line = fault.line;
    match fault.kind {
        FaultKind::UnknownCommand => CommandFault::UnknownCommand { line },
        FaultKind::UnknownKey => CommandFault::UnknownKey { line },
        FaultKind::BadValue => CommandFault::BadValue { line },
        FaultKind::BadPattern => CommandFault::BadPattern { line },
    }
}
