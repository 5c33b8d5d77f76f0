ghost use Rattle.std.specs.Prelude.{◌≡◌, ◌++◌, ◌∷◌, [], None, IfOk};
ghost use Rattle.svd_values.specs.AccessorNames.{accessor_name};
ghost use Rattle.overlap_check.specs.Meetings.{met};

use indexmap::IndexMap;
use pac_base::{Name, NoMemory};
use std::alloc::Global;
use svd_values::accessor;

/// Takes in the name of a further sibling, where `seen` has the written names of those before it under their
/// accessor names. Gives the first of them that has the same accessor name, if there is one.
pub fn meet(
    alloc: Global,
    seen: &mut IndexMap<Name, Name>,
    name: &Name,
) -> Result<Option<Name>, NoMemory>
    ensures earlier { IfOk result (λ earlier. earlier ≡ met name.now seen.old.entries) }
    ensures kept { IfOk result (λ earlier. earlier ≡ None → seen.new.entries ≡ seen.old.entries ++ (accessor_name name.now, name.now) ∷ []) }
{
    let key = accessor(alloc, name)?;
    if let Some(first) = seen.get(&key) {
        return Ok(Some(first.copy(alloc)?));
    }
    seen.insert(key, name.copy(alloc)?)?;
    Ok(None)
}
