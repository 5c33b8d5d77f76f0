ghost use Rattle.std.specs.Prelude.{◌≡◌, IfOk, OnOk, Some, false};
ghost use Rattle.patch_changes.specs.Listed.{AreKeyed, AreUnderNew, RenamesItems, item_comes_to, keyed, twice, under_new};
ghost use Rattle.svd_model.specs.Trees.{item_under};

use crate::naming::{comes_to, there};
use glob_select::Pattern;
use pac_base::{Name, NoMemory, Text};
use patch_sem::PatchFault;
use patch_settings::set_child;
use std::alloc::Global;
use svd_model::{Item, Sibling};

// Sets the keys of the item, where the pattern matches its name.
fn set_item(
    alloc: Global,
    pattern: &Pattern,
    keys: &[(Text, Text)],
    item: &mut Item,
) -> Result<(), NoMemory>
    ensures { IfOk result (λ done. item_under item.new ≡ keyed pattern.now keys.now (item_under item.old)) }
{
    if pattern.matches(item.key.name.bytes()) {
        set_child(alloc, keys, &mut item.child)
    } else {
        Ok(())
    }
}

/// Sets the keys of each item whose name the pattern matches.
pub(crate) fn set_items(
    alloc: Global,
    pattern: &Pattern,
    keys: &[(Text, Text)],
    items: &mut Vec<Item>,
) -> Result<(), NoMemory>
    ensures { OnOk result (AreKeyed item_under pattern.now keys.now items.old.items items.new.items) }
{
    for index in 0..items.len() {
        set_item(alloc, pattern, keys, &mut items[index])?;
    }
    Ok(())
}

// Whether two of the items would have the name.
fn clash(pattern: &Pattern, name: &Name, items: &[Item]) -> bool
    ensures { result ≡ twice (item_comes_to pattern.now name.now) false items.now }
{
    let mut seen = false;
    for item in items {
        if comes_to(pattern, name, &item.key) {
            if seen {
                return true;
            }
            seen = true;
        }
    }
    false
}

fn rename_item(
    alloc: Global,
    pattern: &Pattern,
    name: &Name,
    item: &mut Item,
) -> Result<(), NoMemory>
    ensures { IfOk result (λ done. item_under item.new ≡ under_new pattern.now (Some name.now) (item_under item.old)) }
{
    if pattern.matches(item.key.name.bytes()) {
        item.key = Sibling {
            name: name.copy(alloc)?,
            number: 0,
        };
    }
    Ok(())
}

// Puts the items that the pattern matches under the name.
fn put_under(
    alloc: Global,
    pattern: &Pattern,
    name: &Name,
    items: &mut Vec<Item>,
) -> Result<(), NoMemory>
    ensures { OnOk result (AreUnderNew item_under pattern.now (Some name.now) items.old.items items.new.items) }
{
    for index in 0..items.len() {
        rename_item(alloc, pattern, name, &mut items[index])?;
    }
    Ok(())
}

/// Puts the items that the pattern matches under the new name, where there is one and no two would have it.
pub(crate) fn rename_items(
    alloc: Global,
    line: u32,
    pattern: &Pattern,
    name: &Option<Name>,
    items: &mut Vec<Item>,
) -> Result<(), PatchFault>
    ensures { RenamesItems line pattern.now name.now items.old.items items.new.items result }
{
    let Some(name) = name else {
        return Ok(());
    };
    if clash(pattern, name, items.as_slice()) {
        return Err(there(alloc, line, name));
    }
    match put_under(alloc, pattern, name, items) {
        Ok(()) => Ok(()),
        Err(NoMemory) => Err(PatchFault::Memory),
    }
}
