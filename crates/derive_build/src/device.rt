//! Peripherals and the device, made of settled elements.
ghost use Rattle.std.specs.Prelude.{◌≡◌, ◌+◌, None, map, IfOk, OnOk};
ghost use Rattle.derive_build.specs.Nodes.{own_node};
ghost use Rattle.derive_build.specs.Making.{AddsUnder, MakesUnder};
ghost use Rattle.derive_build.specs.Tables.{HasKids, tree_of};
ghost use Rattle.derive_build.specs.Taking.{keys_by, peripheral_by};
ghost use Rattle.svd_model.specs.Trees.{device_places, device_tree, item_under, peripheral_tree, peripheral_under};
ghost use Rattle.svd_rows.specs.Forest.{siblings};
ghost use Rattle.svd_rows.specs.Ranks.{stated};

use crate::block::items_of;
use crate::copies::{copied_key, dim_of};
use crate::keys::Keys;
use crate::settled::Settled;
use indexmap::IndexMap;
use pac_base::NoMemory;
use std::alloc::Global;
use svd_model::{Device, Item, Peripheral, Sibling, copied_path};

/// A peripheral with these keys and children.
#[tactic(auto, unfolding(svd_model::specs::Trees::peripheral_places))]
fn peripheral_of(
    alloc: Global,
    keys: &Keys<'_>,
    element: &Peripheral,
    children: Vec<Item>,
) -> Result<Peripheral, NoMemory>
    ensures { IfOk result (λ made. peripheral_tree made ≡ record { keys = stated (peripheral_by element.now keys.now); below = siblings (map item_under children.items) }) }
{
    Ok(Peripheral {
        derived: copied_path(alloc, &element.derived)?,
        dim: dim_of(alloc, keys)?,
        base: element.base,
        props: keys.props,
        children,
    })
}

/// Adds the peripheral of a number, where it has a key that is none of those before it. Its children have elements so
/// many levels down.
fn add_peripheral(
    alloc: Global,
    table: &[Settled<'_>],
    number: usize,
    levels: usize,
    made: &mut IndexMap<Sibling, Peripheral>,
) -> Result<(), NoMemory>
    ensures { OnOk result (AddsUnder peripheral_under None table.now (levels + 1) made.old.entries made.new.entries number) }
{
    match table.get(number) {
        Some(settled) => match settled.own.peripheral() {
            Some((key, element)) => {
                let children = items_of(alloc, table, settled.children.as_slice(), levels)?;
                let peripheral = peripheral_of(alloc, &settled.keys, element, children)?;
                made.insert(copied_key(alloc, key)?, peripheral)?;
                Ok(())
            }
            None => Ok(()),
        },
        None => Ok(()),
    }
}

/// The peripherals of these numbers.
fn peripherals_of(
    alloc: Global,
    table: &[Settled<'_>],
    numbers: &[usize],
    levels: usize,
) -> Result<IndexMap<Sibling, Peripheral>, NoMemory>
    ensures { IfOk result (λ made. MakesUnder peripheral_under None table.now (levels + 1) made.entries numbers.now) }
{
    let mut made = IndexMap::new(alloc);
    for number in numbers {
        add_peripheral(alloc, table, *number, levels, &mut made)?;
    }
    Ok(made)
}

/// A device with these peripherals.
#[tactic(auto, unfolding(svd_model::specs::Trees::device_tree, svd_model::specs::Trees::device_places))]
fn with_peripherals(
    alloc: Global,
    device: &Device,
    peripherals: IndexMap<Sibling, Peripheral>,
) -> Result<Device, NoMemory>
    ensures { IfOk result (λ made. device_tree made ≡ record { keys = stated (device_places device.now); below = siblings (map peripheral_under peripherals.entries) }) }
{
    Ok(Device {
        name: device.name.copy(alloc)?,
        props: device.props,
        peripherals,
    })
}

/// The device that a settled element is. Below a peripheral there are so many levels.
pub(crate) fn device_of(
    alloc: Global,
    table: &[Settled<'_>],
    settled: &Settled<'_>,
    device: &Device,
    levels: usize,
) -> Result<Device, NoMemory>
    requires top { (own_node settled.now.own).kind ≡ None }
    requires keys { keys_by settled.now.own settled.now.keys ≡ stated (device_places device.now) }
    ensures { IfOk result (λ made. HasKids table.now (levels + 1) settled.now → device_tree made ≡ tree_of table.now (levels + 1) settled.now) }
{
    let peripherals = peripherals_of(alloc, table, settled.children.as_slice(), levels)?;
    with_peripherals(alloc, device, peripherals)
}
