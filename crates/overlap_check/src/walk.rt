ghost use Rattle.std.specs.Prelude.{◌≡◌, ◌++◌, ◌∷◌, [], IfOk, map};
ghost use Rattle.svd_model.specs.Trees.{item_under, cluster_tree, child_tree, field_under, register_tree, peripheral_under, device_tree};
ghost use Rattle.svd_model.specs.Steps.{cluster, register, peripheral};
ghost use Rattle.svd_rows.specs.Forest.{siblings};
ghost use Rattle.overlap_check.specs.Walks.{told_name, named, first_in, first_below, first_at, first_child};

use crate::place::Place;
use crate::rule::Rule;
use indexmap::IndexMap;
use pac_base::{Name, NoMemory, Path, Seq, Step};
use std::alloc::Global;
use svd_model::{Child, Cluster, Device, Field, Item, Peripheral, Register, Sibling};

/// The path, whose steps stand from the innermost to the outermost, with a further step round it.
pub fn round(alloc: Global, mut inner: Path, name: &Name) -> Result<Path, NoMemory>
    ensures { IfOk result (λ made. made ≡ inner ++ told_name name.now ∷ []) }
{
    inner.push(Step {
        name: name.copy(alloc)?,
        index: None,
    })?;
    Ok(inner)
}

/// The path of what was found below the element of that name.
fn found_round(alloc: Global, found: Option<Path>, name: &Name) -> Result<Option<Path>, NoMemory>
    ensures { IfOk result (λ made. made ≡ named name.now found) }
{
    match found {
        Some(inner) => Ok(Some(round(alloc, inner, name)?)),
        None => Ok(None),
    }
}

fn first_in_fields(
    alloc: Global,
    rule: Rule,
    fields: &IndexMap<Sibling, Field>,
    outer: &Place,
) -> Result<Option<Path>, NoMemory>
    ensures { IfOk result (λ found. found ≡ first_in rule outer.now (siblings (map field_under fields.now.entries))) }
{
    for (key, field) in fields {
        if rule.fails_field(outer, field) {
            return found_round(alloc, Some(Seq::new(alloc)), &key.name);
        }
    }
    Ok(None)
}

fn first_in_register(
    alloc: Global,
    rule: Rule,
    element: &Register,
    outer: &Place,
) -> Result<Option<Path>, NoMemory>
    ensures { IfOk result (λ found. found ≡ first_below rule register outer.now (register_tree element.now)) }
{
    let place = outer.enter(&element.dim, element.offset, element.props.size);
    if rule.fails_register(&place) {
        return Ok(Some(Seq::new(alloc)));
    }
    first_in_fields(alloc, rule, &element.fields, &place)
}

#[cycle(walk)]
fn first_in_items(
    alloc: Global,
    rule: Rule,
    items: &[Item],
    outer: &Place,
) -> Result<Option<Path>, NoMemory>
    ensures { IfOk result (λ found. found ≡ first_in rule outer.now (siblings (map item_under items.now))) }
{
    for item in items {
        let found = first_in_item(alloc, rule, item, outer)?;
        if let Some(path) = found {
            return Ok(Some(path));
        }
    }
    Ok(None)
}

#[cycle(walk)]
fn first_in_item(
    alloc: Global,
    rule: Rule,
    item: &Item,
    outer: &Place,
) -> Result<Option<Path>, NoMemory>
    ensures { IfOk result (λ found. found ≡ first_at rule outer.now (item_under item.now)) }
{
    let found = first_in_child(alloc, rule, &item.child, outer)?;
    found_round(alloc, found, &item.key.name)
}

#[cycle(walk)]
fn first_in_child(
    alloc: Global,
    rule: Rule,
    child: &Child,
    outer: &Place,
) -> Result<Option<Path>, NoMemory>
    ensures { IfOk result (λ found. found ≡ first_child rule outer.now (child_tree child.now)) }
{
    match child {
        Child::Cluster(cluster) => first_in_cluster(alloc, rule, cluster, outer),
        Child::Register(register) => first_in_register(alloc, rule, register, outer),
    }
}

#[cycle(walk)]
fn first_in_cluster(
    alloc: Global,
    rule: Rule,
    element: &Cluster,
    outer: &Place,
) -> Result<Option<Path>, NoMemory>
    ensures { IfOk result (λ found. found ≡ first_below rule cluster outer.now (cluster_tree element.now)) }
{
    let place = outer.enter(&element.dim, element.offset, element.props.size);
    if rule.fails_group(&place) {
        return Ok(Some(Seq::new(alloc)));
    }
    first_in_items(alloc, rule, element.children.as_slice(), &place)
}

fn first_in_peripheral(
    alloc: Global,
    rule: Rule,
    key: &Sibling,
    element: &Peripheral,
    outer: &Place,
) -> Result<Option<Path>, NoMemory>
    ensures { IfOk result (λ found. found ≡ first_at rule outer.now (peripheral_under (key.now, element.now))) }
{
    let place = outer.enter(&element.dim, element.base, element.props.size);
    if rule.fails_group(&place) {
        return found_round(alloc, Some(Seq::new(alloc)), &key.name);
    }
    let found = first_in_items(alloc, rule, element.children.as_slice(), &place)?;
    found_round(alloc, found, &key.name)
}

fn first_in_peripherals(
    alloc: Global,
    rule: Rule,
    peripherals: &IndexMap<Sibling, Peripheral>,
    outer: &Place,
) -> Result<Option<Path>, NoMemory>
    ensures { IfOk result (λ found. found ≡ first_in rule outer.now (siblings (map peripheral_under peripherals.now.entries))) }
{
    for (key, peripheral) in peripherals {
        let found = first_in_peripheral(alloc, rule, key, peripheral, outer)?;
        if let Some(path) = found {
            return Ok(Some(path));
        }
    }
    Ok(None)
}

/// The first element of the device that breaks the rule, in document order. The steps of its path stand from the
/// innermost to the outermost.
pub fn first_in_device(alloc: Global, rule: Rule, device: &Device) -> Result<Option<Path>, NoMemory>
    ensures { IfOk result (λ found. found ≡ first_in rule (Rattle.overlap_check.specs.Walks.device_place device.now.props.size) (device_tree device.now).below) }
{
    let place = Place::device(device.props.size);
    first_in_peripherals(alloc, rule, &device.peripherals, &place)
}
