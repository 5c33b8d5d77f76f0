ghost use Rattle.std.specs.Prelude.{◌≡◌, MatchBool};
ghost use Rattle.patch_form.specs.Unmet.{is_before, rank};
ghost use Rattle.patch_form.specs.Demands.{IsMet, Wanted, one, never};
ghost use Rattle.patch_form.specs.Finding.{First, earlier_of};

use crate::fault::{Fault, FaultKind};

impl FaultKind {
    ghost use Rattle.std.specs.Prelude.{◌≡◌};
    ghost use Rattle.patch_form.specs.Unmet.{rank};

    fn rank(self) -> u8
        ensures { result ≡ rank self }
    {
        match self {
            FaultKind::UnknownCommand => 0,
            FaultKind::UnknownKey => 1,
            FaultKind::BadValue => 2,
            FaultKind::BadPattern => 3,
        }
    }
}

fn is_before(fault: Fault, other: Fault) -> bool
    ensures { result ≡ is_before fault.line fault.kind other.line other.kind }
{
    fault.line < other.line || (fault.line == other.line && fault.kind.rank() < other.kind.rank())
}

/// The earlier of two faults, by line and then by kind.
pub fn earlier(fault: Option<Fault>, other: Option<Fault>) -> Option<Fault>
    ensures { result ≡ earlier_of fault other }
{
    match (fault, other) {
        (None, _) => other,
        (Some(_), None) => fault,
        (Some(first), Some(second)) => {
            if is_before(second, first) {
                other
            } else {
                fault
            }
        }
    }
}

/// A fault.
pub fn fault(line: u32, kind: FaultKind) -> Option<Fault>
    ensures { First (one line kind never) result }
{
    Some(Fault { line, kind })
}

/// A fault where a demand isn't met.
pub fn unless(met: bool, line: u32, kind: FaultKind) -> Option<Fault>
    ensures { (wanted : Wanted) → MatchBool met (IsMet wanted) (¬ (IsMet wanted)) → First (one line kind wanted) result }
{
    if met {
        None
    } else {
        Some(Fault { line, kind })
    }
}
