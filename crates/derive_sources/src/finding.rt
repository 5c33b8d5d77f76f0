ghost use Rattle.std.specs.Prelude.{◌≡◌, ◌<◌, None, get_or, map, option_map, length, IfOk, IfErr, OnOk};
ghost use Rattle.std.specs.Option.{is_none};
ghost use Rattle.derive_sources.specs.Entries.{plain};
ghost use Rattle.derive_sources.specs.Missing.{is_missing, TellsSources, IsMissing};
ghost use Rattle.derive_sources.specs.Numbers.{AreNumbered, Rows, path_at};
ghost use Rattle.derived_rows.specs.Faults.{first_missing};
ghost use Rattle.derive_sources.specs.declared.finding.SourceFault.TheVariants as source_fault;

use crate::entry::{Entry, entry_at};
use crate::index::indexed;
use crate::source::source_of;
use pac_base::NoMemory;
use std::alloc::Global;
use thiserror::Error;

/// Why the sources of a description aren't told.
#[derive(Debug, Drop, Error)]
pub enum SourceFault {
    /// An element states a source, and has none.
    #[error("the source of element {number} is missing")]
    Missing {
        /// The number of the first such element.
        number: usize,
    },
    /// Memory was wanting.
    #[error("out of memory")]
    Memory,
}

impl From<NoMemory> for SourceFault {
    ghost from_gives = { λ _ fault. fault ≡ source_fault.Memory };

    fn from(_error: NoMemory) -> SourceFault {
        SourceFault::Memory
    }
}

/// The source of each element, none where there is none.
fn source_list(alloc: Global, entries: &[Entry<'_>]) -> Result<Vec<Option<usize>>, NoMemory>
    ghost all: { Rows }
    requires { AreNumbered all (map plain entries.now) }
    ensures { IfOk result (λ found. TellsSources all found.items) }
{
    let children = indexed(alloc, entries, false)?;
    let sets = indexed(alloc, entries, true)?;
    let mut found = Vec::new(alloc);
    for number in 0..entries.len() {
        found.push(source_of(entries, &children, &sets, number))?;
    }
    Ok(found)
}

/// Whether no number was found for an element.
fn is_unfound(found: &[Option<usize>], number: usize) -> bool
    ensures { result ≡ is_none (get_or found.now number None) }
{
    match found.get(number) {
        Some(Some(_)) => false,
        Some(None) => true,
        None => true,
    }
}

/// Whether an element states a source and has none.
fn is_missing(entries: &[Entry<'_>], found: &[Option<usize>], number: usize) -> bool
    ghost all: { Rows }
    requires numbered { AreNumbered all (map plain entries.now) }
    requires found { TellsSources all found.now }
    requires inside { number < length entries.now }
    ensures { result ≡ is_missing all (path_at all number) }
{
    match entry_at(entries, number).names {
        Some(_) => is_unfound(found, number),
        None => false,
    }
}

/// The first element that states a source and has none.
fn first_missing(entries: &[Entry<'_>], found: &[Option<usize>]) -> Option<usize>
    ghost all: { Rows }
    requires numbered { AreNumbered all (map plain entries.now) }
    requires found { TellsSources all found.now }
    ensures { option_map (path_at all) result ≡ first_missing all }
{
    for number in 0..entries.len() {
        if is_missing(entries, found, number) {
            return Some(number);
        }
    }
    None
}

/// The number of the source of each element, none for those that state no source; or the first element that states
/// one and has none.
pub fn sources(alloc: Global, entries: &[Entry<'_>]) -> Result<Vec<Option<usize>>, SourceFault>
    ghost all: { Rows }
    requires { AreNumbered all (map plain entries.now) }
    ensures found { IfOk result (λ found. TellsSources all found.items) }
    ensures whole { OnOk result (first_missing all ≡ None) }
    ensures missing { IfErr result (IsMissing all) }
{
    let found = source_list(alloc, entries)?;
    match first_missing(entries, found.as_slice()) {
        Some(number) => Err(SourceFault::Missing { number }),
        None => Ok(found),
    }
}
