ghost use Rattle.std.specs.Prelude.{◌≡◌, None, Some, map};
ghost use Rattle.patch_sem.specs.Selecting.{selects};
ghost use Rattle.patch_edits.specs.Edits.{Edited, EditedChild, EditedOne, Recounts, below_block, below_child, below_device, below_item, below_peripheral, below_register};
ghost use Rattle.patch_edits.specs.Visits.{each, visited};
ghost use Rattle.svd_model.specs.Steps.{peripheral, cluster, register, field};
ghost use Rattle.svd_model.specs.Trees.{peripheral_under, item_under, field_under, field_tree, child_tree};
ghost use Rattle.svd_rows.specs.Forest.{siblings};

use crate::edit::Edit;
use glob_select::Pattern;
use indexmap::IndexMap;
use patch_sem::PatchFault;
use std::alloc::Global;
use svd_model::{Child, Field, Item, Peripheral, Sibling};

/// The edit at each element to which the patterns lead from the device, one after the other, up to the first fault. `total` is
/// how many elements the device has, before and after.
#[tactic(auto, unfolding(crate::specs::Visits::visited))]
pub fn walk<E: Edit>(
    alloc: Global,
    edit: &E,
    patterns: &[Pattern],
    total: &mut u64,
    peripherals: &mut IndexMap<Sibling, Peripheral>,
) -> Result<(), PatchFault>
    ensures edited { Edited (visited (E.edit edit.now) (map selects patterns.now) None (siblings (map peripheral_under peripherals.old.entries))) (siblings (map peripheral_under peripherals.new.entries)) result }
    ensures counted { Recounts below_device result total.old peripherals.old.entries total.new peripherals.new.entries }
{
    match patterns.split_first() {
        None => edit.peripherals(alloc, total, peripherals),
        Some((first, rest)) => each_peripheral(alloc, edit, first, rest, total, peripherals),
    }
}

fn each_peripheral<E: Edit>(
    alloc: Global,
    edit: &E,
    first: &Pattern,
    rest: &[Pattern],
    total: &mut u64,
    peripherals: &mut IndexMap<Sibling, Peripheral>,
) -> Result<(), PatchFault>
    ensures edited { Edited (each (selects first.now) (λ kind. visited (E.edit edit.now) (map selects rest.now) (Some kind)) (siblings (map peripheral_under peripherals.old.entries))) (siblings (map peripheral_under peripherals.new.entries)) result }
    ensures counted { Recounts below_device result total.old peripherals.old.entries total.new peripherals.new.entries }
{
    for index in 0..peripherals.len() {
        let (key, peripheral) = peripherals.pair_mut(index);
        one_peripheral(alloc, edit, first, rest, total, key, peripheral)?;
    }
    Ok(())
}

#[tactic(auto, unfolding(patch_sem::specs::Selecting::selects))]
fn one_peripheral<E: Edit>(
    alloc: Global,
    edit: &E,
    first: &Pattern,
    rest: &[Pattern],
    total: &mut u64,
    key: &Sibling,
    peripheral: &mut Peripheral,
) -> Result<(), PatchFault>
    ensures edited { EditedOne first.now (λ kind. visited (E.edit edit.now) (map selects rest.now) (Some kind)) (peripheral_under (key.now, peripheral.old)) (peripheral_under (key.now, peripheral.new)) result }
    ensures counted { Recounts below_peripheral result total.old peripheral.old total.new peripheral.new }
{
    if first.matches(key.name.bytes()) {
        in_items(alloc, edit, rest, total, &mut peripheral.children)
    } else {
        Ok(())
    }
}

#[cycle(walk)]
#[tactic(auto, unfolding(crate::specs::Visits::visited))]
fn in_items<E: Edit>(
    alloc: Global,
    edit: &E,
    patterns: &[Pattern],
    total: &mut u64,
    items: &mut Vec<Item>,
) -> Result<(), PatchFault>
    ensures in_peripheral { Edited (visited (E.edit edit.now) (map selects patterns.now) (Some peripheral) (siblings (map item_under items.old.items))) (siblings (map item_under items.new.items)) result }
    ensures in_cluster { Edited (visited (E.edit edit.now) (map selects patterns.now) (Some cluster) (siblings (map item_under items.old.items))) (siblings (map item_under items.new.items)) result }
    ensures counted { Recounts below_block result total.old items.old.items total.new items.new.items }
{
    match patterns.split_first() {
        None => edit.items(alloc, total, items),
        Some((first, rest)) => each_item(alloc, edit, first, rest, total, items),
    }
}

#[cycle(walk)]
fn each_item<E: Edit>(
    alloc: Global,
    edit: &E,
    first: &Pattern,
    rest: &[Pattern],
    total: &mut u64,
    items: &mut Vec<Item>,
) -> Result<(), PatchFault>
    ensures edited { Edited (each (selects first.now) (λ kind. visited (E.edit edit.now) (map selects rest.now) (Some kind)) (siblings (map item_under items.old.items))) (siblings (map item_under items.new.items)) result }
    ensures counted { Recounts below_block result total.old items.old.items total.new items.new.items }
{
    for index in 0..items.len() {
        one_item(alloc, edit, first, rest, total, &mut items[index])?;
    }
    Ok(())
}

#[cycle(walk)]
fn one_item<E: Edit>(
    alloc: Global,
    edit: &E,
    first: &Pattern,
    rest: &[Pattern],
    total: &mut u64,
    item: &mut Item,
) -> Result<(), PatchFault>
    ensures edited { EditedOne first.now (λ kind. visited (E.edit edit.now) (map selects rest.now) (Some kind)) (item_under item.old) (item_under item.new) result }
    ensures counted { Recounts below_item result total.old item.old total.new item.new }
{
    if first.matches(item.key.name.bytes()) {
        in_child(alloc, edit, rest, total, &mut item.child)
    } else {
        Ok(())
    }
}

#[cycle(walk)]
fn in_child<E: Edit>(
    alloc: Global,
    edit: &E,
    patterns: &[Pattern],
    total: &mut u64,
    child: &mut Child,
) -> Result<(), PatchFault>
    ensures edited { EditedChild (visited (E.edit edit.now) (map selects patterns.now)) (child_tree child.old) (child_tree child.new) result }
    ensures counted { Recounts below_child result total.old child.old total.new child.new }
{
    match child {
        Child::Cluster(cluster) => in_items(alloc, edit, patterns, total, &mut cluster.children),
        Child::Register(register) => in_fields(alloc, edit, patterns, total, &mut register.fields),
    }
}

#[tactic(auto, unfolding(crate::specs::Visits::visited))]
fn in_fields<E: Edit>(
    alloc: Global,
    edit: &E,
    patterns: &[Pattern],
    total: &mut u64,
    fields: &mut IndexMap<Sibling, Field>,
) -> Result<(), PatchFault>
    ensures edited { Edited (visited (E.edit edit.now) (map selects patterns.now) (Some register) (siblings (map field_under fields.old.entries))) (siblings (map field_under fields.new.entries)) result }
    ensures counted { Recounts below_register result total.old fields.old.entries total.new fields.new.entries }
{
    match patterns.split_first() {
        None => edit.fields(alloc, total, fields),
        Some((first, rest)) => each_field(edit, first, rest, fields),
    }
}

fn each_field<E: Edit>(
    edit: &E,
    first: &Pattern,
    rest: &[Pattern],
    fields: &IndexMap<Sibling, Field>,
) -> Result<(), PatchFault>
    ensures { Edited (each (selects first.now) (λ kind. visited (E.edit edit.now) (map selects rest.now) (Some kind)) (siblings (map field_under fields.now.entries))) (siblings (map field_under fields.now.entries)) result }
{
    for (key, field) in fields {
        one_field(edit, first, rest, key, field)?;
    }
    Ok(())
}

#[tactic(auto, unfolding(patch_sem::specs::Selecting::selects))]
fn one_field<E: Edit>(
    edit: &E,
    first: &Pattern,
    rest: &[Pattern],
    key: &Sibling,
    element: &Field,
) -> Result<(), PatchFault>
    ensures { EditedOne first.now (λ kind. visited (E.edit edit.now) (map selects rest.now) (Some kind)) (field_under (key.now, element.now)) (field_under (key.now, element.now)) result }
{
    if first.matches(key.name.bytes()) {
        in_field(edit, rest, element)
    } else {
        Ok(())
    }
}

// A field has no children for a patch, so a command in it finds nothing, and a pattern opens nothing.
fn in_field<E: Edit>(edit: &E, patterns: &[Pattern], element: &Field) -> Result<(), PatchFault>
    ensures { Edited (visited (E.edit edit.now) (map selects patterns.now) (Some field) (field_tree element.now).below) (field_tree element.now).below result }
{
    match patterns.split_first() {
        None => Err(PatchFault::NoMatch { line: edit.line() }),
        Some(_) => Ok(()),
    }
}
