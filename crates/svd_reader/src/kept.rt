ghost use Rattle.std.specs.Prelude.{◌≡◌, ◌++◌, OnOk};
ghost use Rattle.svd_reader.specs.Walk.{told, entries_with, same_sibling};

use indexmap::IndexMap;
use pac_base::NoMemory;
use svd_model::Sibling;

/// Puts one more at the end, where there is one.
pub fn keep<T: Drop>(made: &mut Vec<T>, more: Option<T>) -> Result<(), NoMemory>
    ensures { OnOk result (made.new.items ≡ made.old.items ++ told (λ x. x) more) }
{
    if let Some(item) = more {
        made.push(item)?;
    }
    Ok(())
}

/// Puts one more under its key, where there is one.
pub fn keep_under<T: Drop>(
    made: &mut IndexMap<Sibling, T>,
    more: Option<(Sibling, T)>,
) -> Result<(), NoMemory>
    ensures { OnOk result (made.new.entries ≡ entries_with same_sibling made.old.entries more) }
{
    if let Some((key, value)) = more {
        made.insert(key, value)?;
    }
    Ok(())
}
