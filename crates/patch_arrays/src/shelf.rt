ghost use Rattle.std.specs.Prelude.{◌≡◌, IfOk, OnOk, map};
ghost use Rattle.std.specs.List.{IsDistinct as AreDistinct};
ghost use Rattle.svd_model.proofs.Copies.{sibling_eq};
ghost use Rattle.svd_model.specs.Trees.{child_tree, item_under};
ghost use Rattle.patch_arrays.specs.Members.{entry_key, under_key};

use indexmap::IndexMap;
use pac_base::NoMemory;
use std::alloc::Global;
use std::mem;
use svd_model::{Child, Item, Sibling};

/// Takes the entries out of a map.
pub(crate) fn entries_of<V: Drop>(
    alloc: Global,
    children: &mut IndexMap<Sibling, V>,
) -> Result<Vec<(Sibling, V)>, NoMemory>
    ensures same { IfOk result (λ entries. entries.items ≡ children.old.entries) }
    ensures distinct { IfOk result (λ entries. AreDistinct sibling_eq (map entry_key entries.items)) }
{
    let mut entries = Vec::with_capacity(alloc, children.len())?;
    let old = mem::replace(children, IndexMap::new(alloc));
    for entry in old {
        entries.push(entry)?;
    }
    Ok(entries)
}

/// Puts entries into a map, of which no two have one key.
pub(crate) fn put_back<V: Drop>(
    alloc: Global,
    children: &mut IndexMap<Sibling, V>,
    entries: Vec<(Sibling, V)>,
) -> Result<(), NoMemory>
    requires { AreDistinct sibling_eq (map entry_key entries.items) }
    ensures { OnOk result (children.new.entries ≡ entries.items) }
{
    let mut made = IndexMap::with_capacity(alloc, entries.len())?;
    for (key, value) in entries {
        made.insert(key, value)?;
    }
    *children = made;
    Ok(())
}

/// Takes the children out of a list.
pub(crate) fn children_of(
    alloc: Global,
    items: &mut Vec<Item>,
) -> Result<Vec<(Sibling, Child)>, NoMemory>
    ensures { IfOk result (λ entries. map (under_key child_tree) entries.items ≡ map item_under items.old.items) }
{
    let mut entries = Vec::with_capacity(alloc, items.len())?;
    let old = mem::replace(items, Vec::new(alloc));
    for item in old {
        entries.push((item.key, item.child))?;
    }
    Ok(entries)
}

/// Makes a list of children.
pub(crate) fn items_of(
    alloc: Global,
    children: Vec<(Sibling, Child)>,
) -> Result<Vec<Item>, NoMemory>
    ensures { IfOk result (λ items. map item_under items.items ≡ map (under_key child_tree) children.items) }
{
    let mut items = Vec::with_capacity(alloc, children.len())?;
    for (key, child) in children {
        items.push(Item { key, child })?;
    }
    Ok(items)
}
