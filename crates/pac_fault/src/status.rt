ghost use Rattle.std.specs.Prelude.{◌≡◌};
ghost use Rattle.pac_fault.specs.Statuses.{status_at, status_of};

use crate::fault::PacFault;

/// The exit status: that of the fault, or 0 where there is none.
pub fn status_of(fault: &Option<PacFault>) -> u8
    ensures { result ≡ status_of fault.now }
{
    match fault {
        Some(fault) => status_at(fault),
        None => 0,
    }
}

fn status_at(fault: &PacFault) -> u8
    ensures { result ≡ status_at fault.now }
{
    match fault {
        PacFault::Memory => 1,
        PacFault::Words(_) => 2,
        PacFault::Read { .. } => 3,
        PacFault::Write => 4,
        PacFault::Bus { .. } => 5,
        PacFault::Svd(_) => 6,
        PacFault::Block(_) | PacFault::Command(_) | PacFault::Patch(_) => 7,
        PacFault::Derive(_) | PacFault::Dim(_) | PacFault::Check(_) => 8,
        PacFault::CrateText(_) => 9,
        PacFault::Script(_) => 10,
        PacFault::Limit(_) => 11,
    }
}
