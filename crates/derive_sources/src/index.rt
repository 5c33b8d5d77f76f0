ghost use Rattle.std.specs.Prelude.{◌≡◌, IfOk, OnOk, List, ℕ, Some, [], map, if◌then◌else◌};
ghost use Rattle.std.specs.Map.{lookup};
ghost use Rattle.std.specs.Option.{option_copied};
ghost use Rattle.derive_sources.specs.Places.{is_place, Holds, Puts};
ghost use Rattle.derive_sources.specs.Entries.{plain};
ghost use Rattle.derive_sources.specs.Numbers.{owner_of, outer_of};

use crate::entry::{Entry, entry_at, is_set};
use indexmap::IndexMap;
use pac_base::NoMemory;
use std::alloc::Global;
use std::marker::Model;

/// A name below an element.
#[derive(PartialEq, Eq, Hash, Drop)]
struct Place<'a> {
    owner: usize,
    name: &'a [u8],
}

/// Numbers of elements by a name below another element. Contracts see it as a list of places with their numbers.
#[derive(Drop)]
pub struct Index<'a> {
    held: IndexMap<Place<'a>, usize>,
}

impl<'a> Model for Index<'a> {
    ghost use Rattle.std.specs.Prelude.{List, ℕ, map};
    ghost use Rattle.derive_sources.specs.Places.{places_in};

    ghost Value = { List ((ℕ × List ℕ) × ℕ) };

    ghost view = { λ index. places_in index.held };
}

impl<'a> Index<'a> {
    /// No number.
    pub fn new(alloc: Global) -> Index<'a>
        ensures { result ≡ [] }
    {
        Index {
            held: IndexMap::new(alloc),
        }
    }

    /// The number that stands at a place.
    pub fn get(&self, owner: usize, name: &[u8]) -> Option<usize>
        ensures { result ≡ lookup (is_place owner name.now) self.now }
    {
        self.held.get(&Place { owner, name }).copied()
    }

    /// Puts a number there, in place of the one that stands there.
    pub fn set(&mut self, owner: usize, name: &'a [u8], number: usize) -> Result<(), NoMemory>
        ensures { IfOk result (λ _. (other : ℕ) (text : List ℕ) → lookup (is_place other text) self.new ≡ (if is_place other text (owner, name.now) then Some number else lookup (is_place other text) self.old)) }
    {
        self.held.insert(Place { owner, name }, number)?;
        Ok(())
    }
}

/// The parent of the parent of an element.
pub(crate) fn outer_of(entries: &[Entry<'_>], entry: &Entry<'_>) -> Option<usize>
    ensures { result ≡ outer_of (map plain entries.now) (plain entry.now) }
{
    match entry.parent {
        Some(parent) => entry_at(entries, parent).parent,
        None => None,
    }
}

/// The element below which another is sought by its name: its parent; or, where `sets` are sought in all fields of a
/// register, that register.
fn owner_of(entries: &[Entry<'_>], sets: bool, entry: &Entry<'_>) -> Option<usize>
    ensures { result ≡ owner_of (map plain entries.now) sets (plain entry.now) }
{
    if sets {
        if is_set(entry.kind) {
            outer_of(entries, entry)
        } else {
            None
        }
    } else {
        entry.parent
    }
}

/// Puts a number below an element under a name, where there are both.
fn put<'a>(
    index: &mut Index<'a>,
    owner: Option<usize>,
    name: &'a [u8],
    number: usize,
) -> Result<(), NoMemory>
    ensures { OnOk result (Puts index.old index.new owner name.entry.now number) }
{
    match owner {
        Some(owner) => {
            if name.is_empty() {
                return Ok(());
            }
            index.set(owner, name, number)
        }
        None => Ok(()),
    }
}

/// The elements by their names and those below which they are sought: their parents; or, of `sets`, the registers
/// round their fields. The first of a name counts.
pub(crate) fn indexed<'a>(
    alloc: Global,
    entries: &[Entry<'a>],
    sets: bool,
) -> Result<Index<'a>, NoMemory>
    ensures { IfOk result (Holds (map plain entries.now) sets) }
{
    let mut index = Index::new(alloc);
    let mut number = entries.len();
    while number > 0 {
        number -= 1;
        let entry = entry_at(entries, number);
        put(
            &mut index,
            owner_of(entries, sets, &entry),
            entry.name,
            number,
        )?;
    }
    Ok(index)
}
