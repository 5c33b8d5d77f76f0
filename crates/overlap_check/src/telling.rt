ghost use Rattle.std.specs.Prelude.{◌≡◌, None, IfOk, reverse};
ghost use Rattle.overlap_check.specs.Ruled.{broken_in, clashing_in, fault_in, overlap_in, place_fault_in};
ghost use Rattle.svd_model.specs.Facts.{IsUnfolded};

use crate::clash::clash_in_device;
use crate::fault::{CheckFault, Policy};
use crate::rule::Rule;
use crate::walk::first_in_device;
use overlap_sweep::{Overlap, Shared, first_overlap};
use pac_base::{NoMemory, Path, Seq, Step};
use std::alloc::Global;
use svd_model::Device;

/// The path with its steps in the reverse order.
fn turned(alloc: Global, inner: &Path) -> Result<Path, NoMemory>
    ensures { IfOk result (λ made. made ≡ reverse inner.now) }
{
    let mut path = Seq::new(alloc);
    for step in inner.as_slice().iter().rev() {
        path.push(Step {
            name: step.name.copy(alloc)?,
            index: step.index,
        })?;
    }
    Ok(path)
}

/// The fault of an element of that path which breaks the rule.
fn fault_at(rule: Rule, path: Path) -> CheckFault
    ensures { result ≡ Rattle.overlap_check.specs.Ruled.fault_at rule path }
{
    match rule {
        Rule::Width => CheckFault::BadWidth { path },
        Rule::Range => CheckFault::AddressRange { path },
        Rule::Alignment => CheckFault::Misaligned { path },
        Rule::Fields => CheckFault::FieldRange { path },
    }
}

/// The first fault by a rule.
#[tactic(auto, unfolding(crate::specs::Ruled::broken_in))]
fn broken(alloc: Global, rule: Rule, device: &Device) -> Result<Option<CheckFault>, NoMemory>
    ensures { IfOk result (λ found. found ≡ broken_in rule device.now) }
{
    match first_in_device(alloc, rule, device)? {
        Some(inner) => Ok(Some(fault_at(rule, turned(alloc, &inner)?))),
        None => Ok(None),
    }
}

/// The first two siblings that have one accessor name.
#[tactic(auto, unfolding(crate::specs::Ruled::clashing_in))]
fn clashing(alloc: Global, device: &Device) -> Result<Option<CheckFault>, NoMemory>
    ensures { IfOk result (λ found. found ≡ clashing_in device.now) }
{
    match clash_in_device(alloc, device)? {
        Some(clash) => Ok(Some(CheckFault::NameClash {
            first: turned(alloc, &clash.first)?,
            second: turned(alloc, &clash.second)?,
        })),
        None => Ok(None),
    }
}

/// The first fault of the kinds before overlaps, one after the other.
#[tactic(auto, unfolding(crate::specs::Ruled::place_fault_in))]
fn place_fault(alloc: Global, device: &Device) -> Result<Option<CheckFault>, NoMemory>
    ensures { IfOk result (λ found. found ≡ place_fault_in device.now) }
{
    let width = broken(alloc, Rule::Width, device)?;
    if let Some(fault) = width {
        return Ok(Some(fault));
    }
    let range = broken(alloc, Rule::Range, device)?;
    if let Some(fault) = range {
        return Ok(Some(fault));
    }
    let alignment = broken(alloc, Rule::Alignment, device)?;
    if let Some(fault) = alignment {
        return Ok(Some(fault));
    }
    let field = broken(alloc, Rule::Fields, device)?;
    Ok(field)
}

/// The first overlap, where overlaps are asked for.
#[tactic(auto, unfolding(crate::specs::Ruled::overlap_in))]
fn overlap(alloc: Global, policy: Policy, device: &Device) -> Result<Option<CheckFault>, NoMemory>
    requires unfolded { IsUnfolded device.now }
    requires placed { place_fault_in device.now ≡ None }
    ensures { IfOk result (λ found. found ≡ overlap_in policy device.now) }
{
    match policy {
        Policy::Loose => Ok(None),
        Policy::Strict => match first_overlap(alloc, device)? {
            Some(Shared::Fields(Overlap { first, second })) => {
                Ok(Some(CheckFault::FieldOverlap { first, second }))
            }
            Some(Shared::Registers(Overlap { first, second })) => {
                Ok(Some(CheckFault::RegisterOverlap { first, second }))
            }
            None => Ok(None),
        },
    }
}

/// The first of all faults that are asked for of a device in which each list is unfolded: the kinds one after the
/// other.
#[tactic(auto, unfolding(crate::specs::Ruled::fault_in))]
pub fn first_fault(
    alloc: Global,
    policy: Policy,
    device: &Device,
) -> Result<Option<CheckFault>, NoMemory>
    requires { IsUnfolded device.now }
    ensures { IfOk result (λ found. found ≡ fault_in policy device.now) }
{
    let place = place_fault(alloc, device)?;
    if let Some(fault) = place {
        return Ok(Some(fault));
    }
    let overlap = overlap(alloc, policy, device)?;
    if let Some(fault) = overlap {
        return Ok(Some(fault));
    }
    clashing(alloc, device)
}
