ghost use Rattle.std.specs.Prelude.{◌≡◌, None, true, IfOk, IfErr, reverse};
ghost use Rattle.svd_model.specs.Facts.{IsDerived, IsUnfolded};
ghost use Rattle.svd_model.specs.Trees.{device_rows, device_tree};
ghost use Rattle.dim_expand.specs.Faults.{first_fault, fault_of, IsFirst};
ghost use Rattle.dim_expand.specs.Unfolding.{unfolded_rows};
ghost use Rattle.dim_expand.specs.Walks.{fault_in, first_in, told_found, AreTyped};

use crate::fault::{Cause, DimFault};
use crate::limit::first_past;
use crate::peripheral::unfolded_device;
use crate::walk::{Found, first_in_peripherals};
use pac_base::{Back, NoMemory, Path, Seq, Step};
use std::alloc::Global;
use svd_model::{Derived, Device, Unfolded};

/// The path with its steps in the reverse order.
fn turned(alloc: Global, inner: &Path) -> Result<Path, NoMemory>
    ensures { IfOk result (λ made. made ≡ reverse inner.now) }
{
    let mut path = Seq::new(alloc);
    for step in inner.as_slice().iter().rev() {
        path.push(Step {
            name: step.name.copy(alloc)?,
            index: step.index,
        })?;
    }
    Ok(path)
}

/// The fault of the element of a path.
fn fault_of(path: Path, cause: Cause) -> DimFault
    ensures { result ≡ fault_of path cause }
{
    match cause {
        Cause::Zero => DimFault::DimZero { path },
        Cause::TooLong { dim } => DimFault::DimTooLong { path, dim },
        Cause::NoMark => DimFault::DimNoMark { path },
        Cause::IndexCount { dim, given } => DimFault::DimIndexCount { path, dim, given },
    }
}

/// The fault of what was found.
fn told(alloc: Global, found: Found) -> Result<DimFault, NoMemory>
    ensures { IfOk result (λ fault. fault ≡ told_found found) }
{
    Ok(fault_of(turned(alloc, &found.inner)?, found.cause))
}

/// The first fault of a device.
fn fault_in(alloc: Global, device: &Device) -> Result<Option<DimFault>, NoMemory>
    ensures fault { IfOk result (λ found. found ≡ fault_in (device_tree device.now).below) }
    ensures typed { IfOk result (λ found. first_in (device_tree device.now).below ≡ None → AreTyped true (device_tree device.now).below) }
{
    match first_in_peripherals(alloc, &device.peripherals)? {
        Some(found) => Ok(Some(told(alloc, found)?)),
        None => Ok(first_past(device)),
    }
}

/// The device, where each list has become its members, or its first fault.
fn unfolded(alloc: Global, device: &Device) -> Result<Device, DimFault>
    requires { IsDerived device.now }
    ensures rows { IfOk result (λ made. device_rows made ≡ unfolded_rows (device_rows device.now)) }
    ensures fact { IfOk result IsUnfolded }
    ensures faultless { IfOk result (λ made. first_fault (device_rows device.now) ≡ None) }
    ensures fault { IfErr result (IsFirst (device_rows device.now)) }
{
    match fault_in(alloc, device) {
        Ok(None) => match unfolded_device(alloc, device) {
            Ok(made) => Ok(made),
            Err(NoMemory) => Err(DimFault::Memory),
        },
        Ok(Some(fault)) => Err(fault),
        Err(NoMemory) => Err(DimFault::Memory),
    }
}

/// The state in which each list has become its members. It is handed back, with the first fault, where it has one: the
/// first element at fault in document order, and then the first count that passes its limit. Want of memory is the one
/// other refusal.
pub fn unfold(alloc: Global, state: Derived) -> Result<Unfolded, Back<Derived, DimFault>>
    ensures rows { IfOk result (λ unfolded. unfolded ≡ unfolded_rows state) }
    ensures faultless { IfOk result (λ unfolded. first_fault state ≡ None) }
    ensures kept { IfErr result (λ back. back.state ≡ state) }
    ensures fault { IfErr result (λ back. IsFirst state back.fault) }
{
    match unfolded(alloc, state.device()) {
        Ok(device) => Ok(Unfolded::new(device)),
        Err(fault) => Err(Back { state, fault }),
    }
}
