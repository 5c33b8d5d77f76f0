ghost use Rattle.std.specs.Prelude.{◌≡◌, [], None, Some, map};
ghost use Rattle.std.specs.List.{list_any};
ghost use Rattle.glob_select.specs.Matching.{matches};
ghost use Rattle.patch_sem.specs.Selecting.{selects};
ghost use Rattle.patch_growth.specs.Growths.{each, grown_all};
ghost use Rattle.patch_growth.specs.Grown.{Grown, GrownChild, GrownOne};
ghost use Rattle.svd_model.specs.Steps.{peripheral, cluster, register};
ghost use Rattle.svd_model.specs.Trees.{peripheral_under, item_under, field_under, child_tree};
ghost use Rattle.svd_rows.specs.Forest.{siblings};

use crate::growing::{grow_fields, grow_items, grow_peripherals};
use crate::maker::Maker;
use glob_select::Pattern;
use indexmap::IndexMap;
use patch_sem::PatchFault;
use std::alloc::Global;
use svd_model::{Child, Field, Item, Peripheral, Sibling};

/// A new child in each element to which the patterns lead from the device, one after the other, up to the first fault. `total`
/// is how many elements the device has, before and after.
#[tactic(auto, unfolding(crate::specs::Growths::visited))]
pub fn walk<M: Maker>(
    alloc: Global,
    maker: &M,
    patterns: &[Pattern],
    total: &mut u64,
    peripherals: &mut IndexMap<Sibling, Peripheral>,
) -> Result<(), PatchFault>
    ensures { Grown (grown_all (M.growth maker.now) (map selects patterns.now) None total.old (siblings (map peripheral_under peripherals.old.entries))) total.new (siblings (map peripheral_under peripherals.new.entries)) result }
{
    match patterns.split_first() {
        None => grow_peripherals(alloc, maker, total, peripherals),
        Some((first, rest)) => each_peripheral(alloc, maker, first, rest, total, peripherals),
    }
}

fn each_peripheral<M: Maker>(
    alloc: Global,
    maker: &M,
    first: &Pattern,
    rest: &[Pattern],
    total: &mut u64,
    peripherals: &mut IndexMap<Sibling, Peripheral>,
) -> Result<(), PatchFault>
    ensures { Grown (each (selects first.now) (λ kind. grown_all (M.growth maker.now) (map selects rest.now) (Some kind)) total.old (siblings (map peripheral_under peripherals.old.entries))) total.new (siblings (map peripheral_under peripherals.new.entries)) result }
{
    for index in 0..peripherals.len() {
        let (key, peripheral) = peripherals.pair_mut(index);
        one_peripheral(alloc, maker, first, rest, total, key, peripheral)?;
    }
    Ok(())
}

#[tactic(auto, unfolding(patch_sem::specs::Selecting::selects))]
fn one_peripheral<M: Maker>(
    alloc: Global,
    maker: &M,
    first: &Pattern,
    rest: &[Pattern],
    total: &mut u64,
    key: &Sibling,
    peripheral: &mut Peripheral,
) -> Result<(), PatchFault>
    ensures { GrownOne first.now (λ kind. grown_all (M.growth maker.now) (map selects rest.now) (Some kind)) total.old (peripheral_under (key.now, peripheral.old)) total.new (peripheral_under (key.now, peripheral.new)) result }
{
    if first.matches(key.name.bytes()) {
        in_items(alloc, maker, rest, total, &mut peripheral.children)
    } else {
        Ok(())
    }
}

#[cycle(walk)]
#[tactic(auto, unfolding(crate::specs::Growths::visited))]
fn in_items<M: Maker>(
    alloc: Global,
    maker: &M,
    patterns: &[Pattern],
    total: &mut u64,
    items: &mut Vec<Item>,
) -> Result<(), PatchFault>
    ensures in_peripheral { Grown (grown_all (M.growth maker.now) (map selects patterns.now) (Some peripheral) total.old (siblings (map item_under items.old.items))) total.new (siblings (map item_under items.new.items)) result }
    ensures in_cluster { Grown (grown_all (M.growth maker.now) (map selects patterns.now) (Some cluster) total.old (siblings (map item_under items.old.items))) total.new (siblings (map item_under items.new.items)) result }
{
    match patterns.split_first() {
        None => grow_items(alloc, maker, total, items),
        Some((first, rest)) => each_item(alloc, maker, first, rest, total, items),
    }
}

#[cycle(walk)]
fn each_item<M: Maker>(
    alloc: Global,
    maker: &M,
    first: &Pattern,
    rest: &[Pattern],
    total: &mut u64,
    items: &mut Vec<Item>,
) -> Result<(), PatchFault>
    ensures { Grown (each (selects first.now) (λ kind. grown_all (M.growth maker.now) (map selects rest.now) (Some kind)) total.old (siblings (map item_under items.old.items))) total.new (siblings (map item_under items.new.items)) result }
{
    for index in 0..items.len() {
        one_item(alloc, maker, first, rest, total, &mut items[index])?;
    }
    Ok(())
}

#[cycle(walk)]
fn one_item<M: Maker>(
    alloc: Global,
    maker: &M,
    first: &Pattern,
    rest: &[Pattern],
    total: &mut u64,
    item: &mut Item,
) -> Result<(), PatchFault>
    ensures { GrownOne first.now (λ kind. grown_all (M.growth maker.now) (map selects rest.now) (Some kind)) total.old (item_under item.old) total.new (item_under item.new) result }
{
    if first.matches(item.key.name.bytes()) {
        in_child(alloc, maker, rest, total, &mut item.child)
    } else {
        Ok(())
    }
}

#[cycle(walk)]
fn in_child<M: Maker>(
    alloc: Global,
    maker: &M,
    patterns: &[Pattern],
    total: &mut u64,
    child: &mut Child,
) -> Result<(), PatchFault>
    ensures { GrownChild (grown_all (M.growth maker.now) (map selects patterns.now)) total.old (child_tree child.old) total.new (child_tree child.new) result }
{
    match child {
        Child::Cluster(cluster) => in_items(alloc, maker, patterns, total, &mut cluster.children),
        Child::Register(register) => in_fields(alloc, maker, patterns, total, &mut register.fields),
    }
}

#[tactic(auto, unfolding(crate::specs::Growths::visited))]
fn in_fields<M: Maker>(
    alloc: Global,
    maker: &M,
    patterns: &[Pattern],
    total: &mut u64,
    fields: &mut IndexMap<Sibling, Field>,
) -> Result<(), PatchFault>
    ensures { Grown (grown_all (M.growth maker.now) (map selects patterns.now) (Some register) total.old (siblings (map field_under fields.old.entries))) total.new (siblings (map field_under fields.new.entries)) result }
{
    match patterns.split_first() {
        None => grow_fields(alloc, maker, total, fields),
        Some((first, rest)) => at_fields(maker, first, rest, *total, fields),
    }
}

// A field has no children for a patch, so a command in it finds nothing, and a pattern opens nothing.
fn at_fields<M: Maker>(
    maker: &M,
    first: &Pattern,
    rest: &[Pattern],
    total: u64,
    fields: &IndexMap<Sibling, Field>,
) -> Result<(), PatchFault>
    ensures { Grown (each (selects first.now) (λ kind. grown_all (M.growth maker.now) (map selects rest.now) (Some kind)) total (siblings (map field_under fields.now.entries))) total (siblings (map field_under fields.now.entries)) result }
{
    match rest.split_first() {
        None => at_last(maker, first, total, fields),
        Some(_) => Ok(()),
    }
}

// The same where no pattern is left.
fn at_last<M: Maker>(
    maker: &M,
    first: &Pattern,
    total: u64,
    fields: &IndexMap<Sibling, Field>,
) -> Result<(), PatchFault>
    ensures { Grown (each (selects first.now) (λ kind. grown_all (M.growth maker.now) [] (Some kind)) total (siblings (map field_under fields.now.entries))) total (siblings (map field_under fields.now.entries)) result }
{
    if matches_one(first, fields) {
        return Err(PatchFault::NoMatch { line: maker.line() });
    }
    Ok(())
}

// Whether the pattern matches the name of a field.
fn matches_one(pattern: &Pattern, fields: &IndexMap<Sibling, Field>) -> bool
    ensures { result ≡ list_any (λ entry. matches pattern.now entry.0.name) fields.now.entries }
{
    for (key, _) in fields {
        if pattern.matches(key.name.bytes()) {
            return true;
        }
    }
    false
}
