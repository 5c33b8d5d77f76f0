ghost use Rattle.std.specs.Prelude.{◌≡◌, ◌++◌, ◌∷◌, [], None, IfOk, map};
ghost use Rattle.patch_sem.specs.Stripping.{first_clash, stripped};
ghost use Rattle.patch_names.specs.Renaming.{entry_name, item_name};
ghost use Rattle.patch_names.specs.Meeting.{met};

use crate::naming::stripped_name;
use indexmap::IndexMap;
use pac_base::{Name, NoMemory};
use std::alloc::Global;
use svd_model::{Item, Sibling};

/// Takes in the name of a further child, where `seen` has the names of those before it under what they are without the
/// prefix. Gives the first of them that it would share a name with, if there is one.
fn meet(
    alloc: Global,
    prefix: &[u8],
    seen: &mut IndexMap<Name, Name>,
    name: &Name,
) -> Result<Option<Name>, NoMemory>
    ensures earlier { IfOk result (λ earlier. earlier ≡ met prefix.now name.now seen.old.entries) }
    ensures kept { IfOk result (λ earlier. earlier ≡ None → seen.new.entries ≡ seen.old.entries ++ (stripped prefix.now name.now, name.now) ∷ []) }
{
    let key = stripped_name(alloc, prefix, name)?;
    if let Some(first) = seen.get(&key) {
        return Ok(Some(first.copy(alloc)?));
    }
    seen.insert(key, name.copy(alloc)?)?;
    Ok(None)
}

/// The first two entries whose names the prefix alone tells apart.
pub(crate) fn clash_in_entries<V>(
    alloc: Global,
    prefix: &[u8],
    entries: &IndexMap<Sibling, V>,
) -> Result<Option<(Name, Name)>, NoMemory>
    ensures { IfOk result (λ found. found ≡ first_clash prefix.now (map entry_name entries.now.entries)) }
{
    let mut seen = IndexMap::new(alloc);
    for (key, _) in entries {
        let earlier = meet(alloc, prefix, &mut seen, &key.name)?;
        if let Some(first) = earlier {
            return Ok(Some((first, key.name.copy(alloc)?)));
        }
    }
    Ok(None)
}

/// The first two items whose names the prefix alone tells apart.
pub(crate) fn clash_in_items(
    alloc: Global,
    prefix: &[u8],
    items: &[Item],
) -> Result<Option<(Name, Name)>, NoMemory>
    ensures { IfOk result (λ found. found ≡ first_clash prefix.now (map item_name items.now)) }
{
    let mut seen = IndexMap::new(alloc);
    for item in items {
        let earlier = meet(alloc, prefix, &mut seen, &item.key.name)?;
        if let Some(first) = earlier {
            return Ok(Some((first, item.key.name.copy(alloc)?)));
        }
    }
    Ok(None)
}
