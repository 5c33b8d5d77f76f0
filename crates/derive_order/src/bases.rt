//! What counting goes by: bases of elements, and which are counted.
ghost use Rattle.std.specs.Prelude.{◌≡◌, None, get_or, length, map, option_map, IfOk};
ghost use Rattle.derive_order.specs.Counting.{AreBases, counted_base, is_field};
ghost use Rattle.derive_order.specs.Kids.{TellsCounted, is_counted_kind};
ghost use Rattle.derive_sources.specs.Entries.{plain, kind_of};
ghost use Rattle.derive_sources.specs.Graphs.{IsGraph};

use crate::gone::parts_of;
use derive_sources::{Entry, Kind, entry_at};
use need_order::Element;
use pac_base::NoMemory;
use std::alloc::Global;

fn is_field(kind: Option<Kind>) -> bool
    ensures { result ≡ is_field (option_map kind_of kind) }
{
    match kind {
        Some(kind) => Kind::Field.is(kind),
        None => false,
    }
}

/// The element as which one begins: its source, but for a field with sets of its own.
fn base_of(kind: Option<Kind>, parts: &[usize], source: Option<usize>) -> Option<usize>
    ensures { result ≡ counted_base (option_map kind_of kind) parts.now source }
{
    if is_field(kind) {
        match parts {
            [_, ..] => None,
            _ => source,
        }
    } else {
        source
    }
}

fn source_at(sources: &[Option<usize>], number: usize) -> Option<usize>
    ensures { result ≡ get_or sources.now number None }
{
    match sources.get(number) {
        Some(source) => *source,
        None => None,
    }
}

/// The element as which each begins.
pub(crate) fn counted_bases(
    alloc: Global,
    entries: &[Entry<'_>],
    elements: &[Element],
    sources: &[Option<usize>],
) -> Result<Vec<Option<usize>>, NoMemory>
    requires graph { IsGraph (map plain entries.now) sources.now elements.now }
    requires long { length sources.now ≡ length entries.now }
    ensures { IfOk result (λ made. AreBases (map plain entries.now) sources.now made.items) }
{
    let mut made = Vec::new(alloc);
    for number in 0..entries.len() {
        made.push(base_of(
            entry_at(entries, number).kind,
            parts_of(elements, number),
            source_at(sources, number),
        ))?;
    }
    Ok(made)
}

/// Whether elements of a kind are counted: sets aren't, nor is the device.
fn is_counted(kind: Option<Kind>) -> bool
    ensures { result ≡ is_counted_kind (option_map kind_of kind) }
{
    match kind {
        Some(Kind::Set) => false,
        Some(_) => true,
        None => false,
    }
}

/// Which elements are counted.
pub(crate) fn counted_flags(alloc: Global, entries: &[Entry<'_>]) -> Result<Vec<bool>, NoMemory>
    ensures { IfOk result (λ made. TellsCounted (map plain entries.now) made.items) }
{
    let mut made = Vec::new(alloc);
    for number in 0..entries.len() {
        made.push(is_counted(entry_at(entries, number).kind))?;
    }
    Ok(made)
}
