ghost use Rattle.std.specs.Prelude.{◌≡◌, [], IfOk, IfErr};
ghost use Rattle.svd_model.specs.Checking.{loose_faults};
ghost use Rattle.overlap_check.specs.Told.{IsFirst, faults};

use crate::fault::{CheckFault, Policy};
use crate::telling::first_fault;
use pac_base::Back;
use std::alloc::Global;
use svd_model::{Checked, Unfolded};

/// The state as one that has no fault of those that are asked for. It is handed back, with the first fault, where it has one; want of memory is
/// the one other refusal.
pub fn check(
    alloc: Global,
    state: Unfolded,
    policy: Policy,
) -> Result<Checked, Back<Unfolded, CheckFault>>
    ensures rows { IfOk result (λ checked. checked ≡ state) }
    ensures faultless { IfOk result (λ checked. loose_faults checked ≡ []) }
    ensures kept { IfErr result (λ back. back.state ≡ state) }
    ensures asked { IfOk result (λ checked. faults policy checked ≡ []) }
    ensures fault { IfErr result (λ back. IsFirst (faults policy state) back.fault) }
{
    match first_fault(alloc, policy, state.device()) {
        Ok(None) => Ok(Checked::new(state.into_device())),
        Ok(Some(fault)) => Err(Back { state, fault }),
        Err(_) => Err(Back {
            state,
            fault: CheckFault::Memory,
        }),
    }
}
