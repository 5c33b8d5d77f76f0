ghost use Rattle.std.specs.Prelude.{◌≡◌, ◌∷◌, [], IfOk, OnOk, map};
ghost use Rattle.svd_model.specs.Trees.{peripheral_under, peripheral_tree, device_tree};
ghost use Rattle.svd_rows.specs.Forest.{siblings};
ghost use Rattle.dim_expand.specs.Narrow.{IsNarrowForest};
ghost use Rattle.dim_expand.specs.Tallies.{Pushes};
ghost use Rattle.dim_expand.specs.Walks.{capped, group_tree, groups_at, unfolded, unfolded_list, unfolded_tree};

use crate::group::{group_at, group_dim, group_name, group_start, list_count};
use crate::item::unfolded_items;
use crate::tally::Tally;
use indexmap::IndexMap;
use pac_base::NoMemory;
use std::alloc::Global;
use svd_model::{Device, Peripheral, Sibling, copied_path};

/// A group of a peripheral.
fn peripheral_group(
    alloc: Global,
    element: &Peripheral,
    group: Option<u64>,
) -> Result<Peripheral, NoMemory>
    ensures { IfOk result (λ made. IsNarrowForest (peripheral_tree element.now).below → peripheral_tree made ≡ group_tree capped (peripheral_tree element.now) group) }
{
    Ok(Peripheral {
        derived: copied_path(alloc, &element.derived)?,
        dim: group_dim(alloc, &element.dim, group)?,
        base: group_start(element.base, &element.dim, group),
        props: element.props,
        children: unfolded_items(alloc, element.children.as_slice())?,
    })
}

fn push_peripheral(
    alloc: Global,
    key: &Sibling,
    element: &Peripheral,
    made: &mut IndexMap<Sibling, Peripheral>,
    tally: &mut Tally,
    group: Option<u64>,
) -> Result<(), NoMemory>
    ensures { OnOk result (IsNarrowForest (peripheral_tree element.now).below → Pushes tally.old.counts.entries (map peripheral_under made.old.entries) (groups_at capped (peripheral_under (key.now, element.now)) (group ∷ [])) tally.new.counts.entries (map peripheral_under made.new.entries)) }
{
    let name = group_name(alloc, &key.name, &element.dim, group)?;
    let peripheral = peripheral_group(alloc, element, group)?;
    let key = tally.next(alloc, name)?;
    made.insert(key, peripheral)?;
    Ok(())
}

fn push_peripherals(
    alloc: Global,
    key: &Sibling,
    element: &Peripheral,
    made: &mut IndexMap<Sibling, Peripheral>,
    tally: &mut Tally,
) -> Result<(), NoMemory>
    ensures { OnOk result (IsNarrowForest (peripheral_tree element.now).below → Pushes tally.old.counts.entries (map peripheral_under made.old.entries) (unfolded_list capped (siblings (peripheral_under (key.now, element.now) ∷ []))) tally.new.counts.entries (map peripheral_under made.new.entries)) }
{
    let count = list_count(false, &key.name, &element.dim);
    for place in 0..count.unwrap_or(1) {
        push_peripheral(alloc, key, element, made, tally, group_at(count, place))?;
    }
    Ok(())
}

fn unfolded_peripherals(
    alloc: Global,
    peripherals: &IndexMap<Sibling, Peripheral>,
) -> Result<IndexMap<Sibling, Peripheral>, NoMemory>
    ensures { IfOk result (λ made. IsNarrowForest (siblings (map peripheral_under peripherals.now.entries)) → siblings (map peripheral_under made.entries) ≡ unfolded capped (siblings (map peripheral_under peripherals.now.entries))) }
{
    let mut made = IndexMap::new(alloc);
    let mut tally = Tally::new(alloc);
    for (key, peripheral) in peripherals {
        push_peripherals(alloc, key, peripheral, &mut made, &mut tally)?;
    }
    Ok(made)
}

/// The device, where each list has become its members. The device that is lent stays as it is.
#[tactic(auto, unfolding(svd_model::specs::Trees::device_tree, svd_model::specs::Trees::device_places))]
pub fn unfolded_device(alloc: Global, device: &Device) -> Result<Device, NoMemory>
    ensures { IfOk result (λ made. IsNarrowForest (device_tree device.now).below → device_tree made ≡ unfolded_tree capped (device_tree device.now)) }
{
    Ok(Device {
        name: device.name.copy(alloc)?,
        props: device.props,
        peripherals: unfolded_peripherals(alloc, &device.peripherals)?,
    })
}
