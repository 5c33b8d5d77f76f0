ghost use Rattle.std.specs.Prelude.{◌≡◌, None, OnOk, map};
ghost use Rattle.patch_sem.specs.Stripping.{first_clash};
ghost use Rattle.patch_names.specs.Renaming.{entry_name, stripped_element, stripped_entry};
ghost use Rattle.svd_model.specs.Trees.{item_under};

use crate::naming::{stripped_key, stripped_name};
use indexmap::IndexMap;
use pac_base::NoMemory;
use std::alloc::Global;
use std::mem;
use svd_model::{Item, Sibling};

/// Takes the prefix off the names of the entries, of which no two come to one name.
pub(crate) fn strip_entries<V: Drop>(
    alloc: Global,
    prefix: &[u8],
    entries: &mut IndexMap<Sibling, V>,
) -> Result<(), NoMemory>
    requires { first_clash prefix.now (map entry_name entries.old.entries) ≡ None }
    ensures { OnOk result (entries.new.entries ≡ map (stripped_entry prefix.now) entries.old.entries) }
{
    let mut made = IndexMap::with_capacity(alloc, entries.len())?;
    let old = mem::replace(entries, IndexMap::new(alloc));
    for (key, value) in old {
        made.insert(stripped_key(alloc, prefix, key)?, value)?;
    }
    *entries = made;
    Ok(())
}

fn strip_item(alloc: Global, prefix: &[u8], item: &mut Item) -> Result<(), NoMemory>
    ensures { OnOk result (item_under item.new ≡ stripped_element prefix.now (item_under item.old)) }
{
    item.key.name = stripped_name(alloc, prefix, &item.key.name)?;
    Ok(())
}

/// Takes the prefix off the names of the items.
pub(crate) fn strip_items(
    alloc: Global,
    prefix: &[u8],
    items: &mut Vec<Item>,
) -> Result<(), NoMemory>
    ensures { OnOk result (map item_under items.new.items ≡ map (λ item. stripped_element prefix.now (item_under item)) items.old.items) }
{
    for index in 0..items.len() {
        strip_item(alloc, prefix, &mut items[index])?;
    }
    Ok(())
}
