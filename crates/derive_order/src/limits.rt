//! How deep derived elements nest, and how many there are: found by their numbers, along their order.
ghost use Rattle.std.specs.Prelude.{◌≡◌, ◌<◌, ◌&&◌, ℕ, List, None, false, get_or, map, option_map, length, IfOk};
ghost use Rattle.std.specs.List.{find};
ghost use Rattle.derive_order.specs.Arranging.{AreArranged, BeginAs, Known};
ghost use Rattle.derive_sources.specs.Entries.{plain};
ghost use Rattle.derive_sources.specs.Graphs.{children_among};
ghost use Rattle.derive_sources.specs.Numbers.{path_at, item_at, is_number};
ghost use Rattle.derived_rows.specs.Deriving.{derived_rows};
ghost use Rattle.derived_rows.specs.Faults.{first_deep};
ghost use Rattle.svd_model.specs.Counting.{told_count};
ghost use Rattle.svd_model.specs.Facts.{elements_of};

use crate::arranged::Arranged;
use crate::bases::{counted_bases, counted_flags};
use crate::gone::all_gone;
use crate::keys::name_keys;
use derive_sources::{Entry, entry_at, needs_of};
use need_order::{Element, counted, deep};
use pac_base::NoMemory;
use std::alloc::Global;

/// Elements as counting takes them.
#[derive(Drop)]
pub(crate) struct Begins {
    /// Each with that as which it begins, and its own children.
    pub elements: Vec<Element>,
    /// The children that it has no more.
    pub gone: Vec<Vec<usize>>,
}

/// The elements as counting takes them.
pub(crate) fn begun(
    alloc: Global,
    entries: &[Entry<'_>],
    sources: &[Option<usize>],
    arranged: &Arranged,
) -> Result<Begins, NoMemory>
    ghost known: { Known }
    requires { AreArranged known entries.now sources.now arranged.now }
    ensures { IfOk result (BeginAs known entries.now arranged.now) }
{
    let keys = name_keys(alloc, entries)?;
    let bases = counted_bases(alloc, entries, arranged.elements.as_slice(), sources)?;
    let elements = needs_of(alloc, entries, bases.as_slice())?;
    let gone = all_gone(alloc, elements.as_slice(), keys.as_slice())?;
    Ok(Begins { elements, gone })
}

fn is_zero(parent: Option<usize>) -> bool
    ensures { result ≡ is_number 0 parent }
{
    match parent {
        Some(parent) => 0 == parent,
        None => false,
    }
}

fn flag_at(flags: &[bool], number: usize) -> bool
    ensures { result ≡ get_or flags.now number false }
{
    match flags.get(number) {
        Some(flag) => *flag,
        None => false,
    }
}

/// Whether an element is a peripheral whose flag is set.
fn is_flagged(entries: &[Entry<'_>], flags: &[bool], number: usize) -> bool
    ensures { result ≡ (is_number 0 (item_at (map plain entries.now) number).parent && get_or flags.now number false) }
{
    if is_zero(entry_at(entries, number).parent) {
        flag_at(flags, number)
    } else {
        false
    }
}

/// The first peripheral whose flag is set.
fn first_flagged(entries: &[Entry<'_>], flags: &[bool]) -> Option<usize>
    ensures { result ≡ find (λ d. get_or flags.now d false) (children_among 0 0 (map plain entries.now)) }
{
    for number in 0..entries.len() {
        if is_flagged(entries, flags, number) {
            return Some(number);
        }
    }
    None
}

/// The first peripheral below which a derived path has more than 64 steps.
pub(crate) fn first_deep(
    alloc: Global,
    entries: &[Entry<'_>],
    sources: &[Option<usize>],
    arranged: &Arranged,
    begun: &Begins,
) -> Result<Option<usize>, NoMemory>
    ghost known: { Known }
    requires arranged { AreArranged known entries.now sources.now arranged.now }
    requires begun { BeginAs known entries.now arranged.now begun.now }
    ensures { IfOk result (λ found. option_map (path_at known.all) found ≡ first_deep known.all) }
{
    let flags = deep(
        alloc,
        begun.elements.as_slice(),
        begun.gone.as_slice(),
        arranged.order.as_slice(),
        64,
    )?;
    Ok(first_flagged(entries, flags.as_slice()))
}

/// The count of the device.
fn count_of(counts: &[u64]) -> u64
    ensures { result ≡ get_or counts.now 0 0 }
{
    match counts.get(0) {
        Some(count) => *count,
        None => 0,
    }
}

/// How many derived elements there are, at most `u64::MAX`.
pub(crate) fn amount(
    alloc: Global,
    entries: &[Entry<'_>],
    sources: &[Option<usize>],
    arranged: &Arranged,
    begun: &Begins,
) -> Result<u64, NoMemory>
    ghost known: { Known }
    requires arranged { AreArranged known entries.now sources.now arranged.now }
    requires begun { BeginAs known entries.now arranged.now begun.now }
    ensures { IfOk result (λ count. count ≡ told_count (elements_of (derived_rows known.all))) }
{
    let flags = counted_flags(alloc, entries)?;
    let counts = counted(
        alloc,
        begun.elements.as_slice(),
        begun.gone.as_slice(),
        arranged.order.as_slice(),
        flags.as_slice(),
    )?;
    Ok(count_of(counts.as_slice()))
}
