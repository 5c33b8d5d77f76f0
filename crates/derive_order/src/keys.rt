//! Keys of names.
ghost use Rattle.std.specs.Prelude.{◌≡◌, ◌<◌, map, length, unwrap_or, IfOk};
ghost use Rattle.std.specs.Map.{lookup};
ghost use Rattle.derive_order.specs.Counting.{AreKeys, HoldsFirsts};
ghost use Rattle.derive_sources.specs.Entries.{plain};
ghost use Rattle.derive_sources.specs.Places.{is_place};

use derive_sources::{Entry, Index, entry_at};
use pac_base::NoMemory;
use std::alloc::Global;

/// The first element of each name, below no element but 0.
fn firsts<'a>(alloc: Global, entries: &[Entry<'a>]) -> Result<Index<'a>, NoMemory>
    ensures { IfOk result (HoldsFirsts (map plain entries.now)) }
{
    let mut index = Index::new(alloc);
    let mut number = entries.len();
    while number > 0 {
        number -= 1;
        index.set(0, entry_at(entries, number).name, number)?;
    }
    Ok(index)
}

/// The key of a name: the number of the first element that has it.
fn key_in(index: &Index<'_>, name: &[u8]) -> usize
    ensures { result ≡ unwrap_or (lookup (is_place 0 name.now) index.now) 0 }
{
    match index.get(0, name) {
        Some(number) => number,
        None => 0,
    }
}

/// The key of each element: elements of one name have one key.
pub(crate) fn name_keys(alloc: Global, entries: &[Entry<'_>]) -> Result<Vec<usize>, NoMemory>
    requires { 0 < length entries.now }
    ensures { IfOk result (λ keys. AreKeys (map plain entries.now) keys.items) }
{
    let index = firsts(alloc, entries)?;
    let mut keys = Vec::new(alloc);
    for entry in entries {
        keys.push(key_in(&index, entry.name))?;
    }
    Ok(keys)
}
