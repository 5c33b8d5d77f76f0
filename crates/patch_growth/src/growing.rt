ghost use Rattle.std.specs.Prelude.{◌≡◌, [], ◌∷◌, ◌++◌, MatchResult, None, Some, map};
ghost use Rattle.std.specs.List.{list_any};
ghost use Rattle.std.specs.Str.{bytes_eq};
ghost use Rattle.patch_growth.specs.Growths.{grown};
ghost use Rattle.indexmap.specs.IndexMap.{insert_entry};
ghost use Rattle.patch_growth.specs.Grown.{Counts, Grown, IsThere, same_sibling};
ghost use Rattle.svd_model.specs.Steps.{peripheral, cluster, register};
ghost use Rattle.svd_model.specs.Trees.{peripheral_under, item_under, field_under};
ghost use Rattle.svd_rows.specs.Forest.{siblings};

use crate::maker::Maker;
use indexmap::IndexMap;
use pac_base::{Name, NoMemory};
use patch_sem::PatchFault;
use std::alloc::Global;
use svd_model::{Counted, Field, Item, Peripheral, Sibling};

// Whether an entry has the name.
fn has_entry<V>(name: &Name, entries: &IndexMap<Sibling, V>) -> bool
    ensures { result ≡ list_any (λ entry. bytes_eq name.now entry.0.name) entries.now.entries }
{
    for (key, _) in entries {
        if name.bytes() == key.name.bytes() {
            return true;
        }
    }
    false
}

// Whether an item has the name.
fn has_item(name: &Name, items: &[Item]) -> bool
    ensures { result ≡ list_any (λ item. bytes_eq name.now item.key.name) items.now }
{
    for item in items {
        if name.bytes() == item.key.name.bytes() {
            return true;
        }
    }
    false
}

// The fault that a sibling has the name.
fn there(alloc: Global, line: u32, name: &Name) -> PatchFault
    ensures { IsThere line name.now result }
{
    match name.copy(alloc) {
        Ok(name) => PatchFault::AddExists { line, name },
        Err(NoMemory) => PatchFault::Memory,
    }
}

// The key of a new child.
fn key_of(alloc: Global, name: &Name) -> Result<Sibling, PatchFault>
    ensures { MatchResult result (λ key. (key.name ≡ name.now) × (key.number ≡ 0)) (λ fault. fault ≡ PatchFault.Memory) }
{
    match name.copy(alloc) {
        Ok(name) => Ok(Sibling { name, number: 0 }),
        Err(NoMemory) => Err(PatchFault::Memory),
    }
}

// One more element with those below it, up to the limit of 1,048,576 for a whole description.
fn count_one(total: &mut u64, below: u64) -> Result<(), PatchFault>
    ensures { Counts total.old below total.new result }
{
    let count = total.saturating_add(1).saturating_add(below);
    if count > 1_048_576 {
        return Err(PatchFault::TooMany {
            kind: Counted::Elements,
            count,
        });
    }
    *total = count;
    Ok(())
}

// A new entry, behind the others where none has its key.
fn put_entry<V: Drop>(
    entries: &mut IndexMap<Sibling, V>,
    key: Sibling,
    value: V,
) -> Result<(), PatchFault>
    ensures { MatchResult result (λ done. entries.new.entries ≡ insert_entry same_sibling entries.old.entries key value) (λ fault. fault ≡ PatchFault.Memory) }
{
    match entries.insert(key, value) {
        Ok(_) => Ok(()),
        Err(_) => Err(PatchFault::Memory),
    }
}

// A new item behind the others.
fn put_item(items: &mut Vec<Item>, item: Item) -> Result<(), PatchFault>
    ensures { MatchResult result (λ done. items.new.items ≡ items.old.items ++ item ∷ []) (λ fault. fault ≡ PatchFault.Memory) }
{
    match items.push(item) {
        Ok(()) => Ok(()),
        Err(_) => Err(PatchFault::Memory),
    }
}

/// A new peripheral behind those of a device.
pub(crate) fn grow_peripherals<M: Maker>(
    alloc: Global,
    maker: &M,
    total: &mut u64,
    peripherals: &mut IndexMap<Sibling, Peripheral>,
) -> Result<(), PatchFault>
    ensures { Grown (grown (M.growth maker.now) None total.old (siblings (map peripheral_under peripherals.old.entries))) total.new (siblings (map peripheral_under peripherals.new.entries)) result }
{
    let name = maker.name();
    if has_entry(name, peripherals) {
        return Err(there(alloc, maker.line(), name));
    }
    let made = maker.peripheral(alloc, peripherals)?;
    let key = key_of(alloc, name)?;
    count_one(total, made.elements())?;
    put_entry(peripherals, key, made)
}

/// A new register or cluster behind those of a peripheral or cluster.
pub(crate) fn grow_items<M: Maker>(
    alloc: Global,
    maker: &M,
    total: &mut u64,
    items: &mut Vec<Item>,
) -> Result<(), PatchFault>
    ensures in_peripheral { Grown (grown (M.growth maker.now) (Some peripheral) total.old (siblings (map item_under items.old.items))) total.new (siblings (map item_under items.new.items)) result }
    ensures in_cluster { Grown (grown (M.growth maker.now) (Some cluster) total.old (siblings (map item_under items.old.items))) total.new (siblings (map item_under items.new.items)) result }
{
    let name = maker.name();
    let before = items.as_slice();
    if has_item(name, before) {
        return Err(there(alloc, maker.line(), name));
    }
    let child = maker.child(alloc, before)?;
    let key = key_of(alloc, name)?;
    count_one(total, child.elements())?;
    put_item(items, Item { key, child })
}

/// A new field behind those of a register.
pub(crate) fn grow_fields<M: Maker>(
    alloc: Global,
    maker: &M,
    total: &mut u64,
    fields: &mut IndexMap<Sibling, Field>,
) -> Result<(), PatchFault>
    ensures { Grown (grown (M.growth maker.now) (Some register) total.old (siblings (map field_under fields.old.entries))) total.new (siblings (map field_under fields.new.entries)) result }
{
    let name = maker.name();
    if has_entry(name, fields) {
        return Err(there(alloc, maker.line(), name));
    }
    let made = maker.field(alloc, fields)?;
    let key = key_of(alloc, name)?;
    count_one(total, made.elements())?;
    put_entry(fields, key, made)
}
