//! Faults with the names of their elements.
ghost use Rattle.std.specs.Prelude.{IfOk};
ghost use Rattle.derive_from.specs.Refusals.{IsRefused};
ghost use Rattle.derive_order.specs.Faults.{IsFaultAt};
ghost use Rattle.derive_order.specs.declared.fault.OrderFault.TheVariants as order_fault;
ghost use Rattle.svd_model.specs.Facts.{IsDescribed};
ghost use Rattle.svd_model.specs.Trees.{device_rows};

use crate::fault::DeriveFault;
use crate::path::{names_in, path_in};
use derive_order::OrderFault;
use pac_base::NoMemory;
use std::alloc::Global;
use svd_model::{Counted, Device};

fn told_missing(alloc: Global, device: &Device, number: usize) -> Result<DeriveFault, NoMemory>
    requires described { IsDescribed device.now }
    requires missing { IsFaultAt (device_rows device.now) (order_fault.Missing number) }
    ensures { IfOk result (IsRefused (device_rows device.now)) }
{
    Ok(DeriveFault::MissingParent {
        path: path_in(alloc, device, number)?,
        name: names_in(alloc, device, number)?,
    })
}

fn told_cycle(alloc: Global, device: &Device, number: usize) -> Result<DeriveFault, NoMemory>
    requires described { IsDescribed device.now }
    requires cycle { IsFaultAt (device_rows device.now) (order_fault.Cycle number) }
    ensures { IfOk result (IsRefused (device_rows device.now)) }
{
    Ok(DeriveFault::DeriveCycle {
        path: path_in(alloc, device, number)?,
    })
}

fn told_deep(alloc: Global, device: &Device, number: usize) -> Result<DeriveFault, NoMemory>
    requires described { IsDescribed device.now }
    requires deep { IsFaultAt (device_rows device.now) (order_fault.TooDeep number) }
    ensures { IfOk result (IsRefused (device_rows device.now)) }
{
    Ok(DeriveFault::TooDeep {
        path: path_in(alloc, device, number)?,
    })
}

fn told_with_names(
    alloc: Global,
    device: &Device,
    fault: OrderFault,
) -> Result<DeriveFault, NoMemory>
    requires described { IsDescribed device.now }
    requires fault { IsFaultAt (device_rows device.now) fault }
    ensures { IfOk result (IsRefused (device_rows device.now)) }
{
    match fault {
        OrderFault::Missing { number } => told_missing(alloc, device, number),
        OrderFault::Cycle { number } => told_cycle(alloc, device, number),
        OrderFault::TooDeep { number } => told_deep(alloc, device, number),
        OrderFault::TooMany { count } => Ok(DeriveFault::TooMany {
            kind: Counted::Elements,
            count,
        }),
        OrderFault::Memory => Err(NoMemory),
    }
}

/// The fault with the names of its element, or that memory was wanting for them.
pub(crate) fn told(alloc: Global, device: &Device, fault: OrderFault) -> DeriveFault
    requires described { IsDescribed device.now }
    requires fault { IsFaultAt (device_rows device.now) fault }
    ensures { IsRefused (device_rows device.now) result }
{
    match told_with_names(alloc, device, fault) {
        Ok(told) => told,
        Err(NoMemory) => DeriveFault::Memory,
    }
}
