ghost use Rattle.std.specs.Prelude.{◌≡◌, true};
ghost use Rattle.svd_model.specs.Trees.{device_tree};
ghost use Rattle.dim_expand.specs.Faults.{limit_of, past_limit, first_past};
ghost use Rattle.dim_expand.specs.Walks.{AreTyped, weighed};

use crate::count::peripherals_count;
use crate::fault::DimFault;
use svd_model::{Counted, Device};

/// How much of each there may be, where each list is unfolded.
fn limit_of(counted: Counted) -> u64
    ensures { result ≡ limit_of counted }
{
    match counted {
        Counted::Elements => 1_048_576,
        Counted::Registers => 262_144,
        Counted::Fields => 524_288,
        Counted::Values => 1_048_576,
    }
}

/// The fault where there is too much of it.
#[tactic(auto, unfolding(svd_model::specs::Trees::device_tree))]
fn past_limit(counted: Counted, device: &Device) -> Option<DimFault>
    ensures fault { result ≡ past_limit counted (weighed counted (device_tree device.now).below) }
    ensures typed { AreTyped true (device_tree device.now).below }
{
    let count = peripherals_count(counted, &device.peripherals);
    if limit_of(counted) < count {
        Some(DimFault::TooMany {
            kind: counted,
            count,
        })
    } else {
        None
    }
}

/// The first of the counts that passes its limit.
pub fn first_past(device: &Device) -> Option<DimFault>
    ensures fault { result ≡ first_past (λ counted. weighed counted (device_tree device.now).below) }
    ensures typed { AreTyped true (device_tree device.now).below }
{
    if let Some(fault) = past_limit(Counted::Elements, device) {
        return Some(fault);
    }
    if let Some(fault) = past_limit(Counted::Registers, device) {
        return Some(fault);
    }
    if let Some(fault) = past_limit(Counted::Fields, device) {
        return Some(fault);
    }
    past_limit(Counted::Values, device)
}
