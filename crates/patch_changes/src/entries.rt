ghost use Rattle.std.specs.Prelude.{◌≡◌, IfOk, OnOk, Some, false, map};
ghost use Rattle.patch_changes.specs.Listed.{AreKeyed, RenamesEntries, entry_comes_to, keyed, new_entry, twice};
ghost use Rattle.svd_model.specs.Trees.{field_under, peripheral_under};

use crate::naming::{comes_to, new_key, there};
use glob_select::Pattern;
use indexmap::IndexMap;
use pac_base::{Name, NoMemory, Text};
use patch_sem::PatchFault;
use patch_settings::{set_field, set_peripheral};
use std::alloc::Global;
use std::mem;
use svd_model::{Field, Peripheral, Sibling};

// Sets the keys of the peripheral, where the pattern matches its name.
fn set_one_peripheral(
    alloc: Global,
    pattern: &Pattern,
    keys: &[(Text, Text)],
    key: &Sibling,
    peripheral: &mut Peripheral,
) -> Result<(), NoMemory>
    ensures { IfOk result (λ done. peripheral_under (key.now, peripheral.new) ≡ keyed pattern.now keys.now (peripheral_under (key.now, peripheral.old))) }
{
    if pattern.matches(key.name.bytes()) {
        set_peripheral(alloc, keys, peripheral)
    } else {
        Ok(())
    }
}

/// Sets the keys of each peripheral whose name the pattern matches.
pub(crate) fn set_peripherals(
    alloc: Global,
    pattern: &Pattern,
    keys: &[(Text, Text)],
    peripherals: &mut IndexMap<Sibling, Peripheral>,
) -> Result<(), NoMemory>
    ensures { OnOk result (AreKeyed peripheral_under pattern.now keys.now peripherals.old.entries peripherals.new.entries) }
{
    for index in 0..peripherals.len() {
        let (key, peripheral) = peripherals.pair_mut(index);
        set_one_peripheral(alloc, pattern, keys, key, peripheral)?;
    }
    Ok(())
}

// Sets the keys of the field, where the pattern matches its name.
fn set_one_field(
    alloc: Global,
    pattern: &Pattern,
    keys: &[(Text, Text)],
    key: &Sibling,
    element: &mut Field,
) -> Result<(), NoMemory>
    ensures { IfOk result (λ done. field_under (key.now, element.new) ≡ keyed pattern.now keys.now (field_under (key.now, element.old))) }
{
    if pattern.matches(key.name.bytes()) {
        set_field(alloc, keys, element)
    } else {
        Ok(())
    }
}

/// Sets the keys of each field whose name the pattern matches.
pub(crate) fn set_fields(
    alloc: Global,
    pattern: &Pattern,
    keys: &[(Text, Text)],
    fields: &mut IndexMap<Sibling, Field>,
) -> Result<(), NoMemory>
    ensures { OnOk result (AreKeyed field_under pattern.now keys.now fields.old.entries fields.new.entries) }
{
    for index in 0..fields.len() {
        let (key, element) = fields.pair_mut(index);
        set_one_field(alloc, pattern, keys, key, element)?;
    }
    Ok(())
}

// Whether two of the entries would have the name.
fn clash<V>(pattern: &Pattern, name: &Name, entries: &IndexMap<Sibling, V>) -> bool
    ensures { result ≡ twice (entry_comes_to pattern.now name.now) false entries.now.entries }
{
    let mut seen = false;
    for (key, _) in entries {
        if comes_to(pattern, name, key) {
            if seen {
                return true;
            }
            seen = true;
        }
    }
    false
}

// Puts the entry that the pattern matches under the name, in its place.
fn put_under<V: Drop>(
    alloc: Global,
    pattern: &Pattern,
    name: &Name,
    entries: &mut IndexMap<Sibling, V>,
) -> Result<(), NoMemory>
    requires { twice (entry_comes_to pattern.now name.now) false entries.old.entries ≡ false }
    ensures { OnOk result (entries.new.entries ≡ map (new_entry pattern.now (Some name.now)) entries.old.entries) }
{
    let mut made = IndexMap::with_capacity(alloc, entries.len())?;
    let old = mem::replace(entries, IndexMap::new(alloc));
    for (key, value) in old {
        made.insert(new_key(alloc, pattern, name, key)?, value)?;
    }
    *entries = made;
    Ok(())
}

/// Puts the entries that the pattern matches under the new name, where there is one and no two would have it.
pub(crate) fn rename_entries<V: Drop>(
    alloc: Global,
    line: u32,
    pattern: &Pattern,
    name: &Option<Name>,
    entries: &mut IndexMap<Sibling, V>,
) -> Result<(), PatchFault>
    ensures { RenamesEntries line pattern.now name.now entries.old.entries entries.new.entries result }
{
    let Some(name) = name else {
        return Ok(());
    };
    if clash(pattern, name, entries) {
        return Err(there(alloc, line, name));
    }
    match put_under(alloc, pattern, name, entries) {
        Ok(()) => Ok(()),
        Err(NoMemory) => Err(PatchFault::Memory),
    }
}
