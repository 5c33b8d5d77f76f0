ghost use Rattle.std.specs.Prelude.{◌≡◌, ◌<◌, ◌++◌, ◌∷◌, [], None, ℕ, length, get_or, map, IfOk, OnOk};
ghost use Rattle.derive_sources.specs.Entries.{plain};
ghost use Rattle.derive_sources.specs.Graphs.{parts_at, AddsPart, IsGraph};

use crate::entry::{Entry, entry_at};
use need_order::Element;
use pac_base::NoMemory;
use std::alloc::Global;

/// Elements with these bases, and no parts yet.
fn bare(alloc: Global, bases: &[Option<usize>]) -> Result<Vec<Element>, NoMemory>
    ensures bases { IfOk result (λ made. map (λ element. element.base) made.items ≡ bases.now) }
    ensures parts { IfOk result (λ made. (e : ℕ) → parts_at made.items e ≡ []) }
{
    let mut made = Vec::new(alloc);
    for base in bases {
        made.push(Element {
            base: *base,
            parts: Vec::new(alloc),
        })?;
    }
    Ok(made)
}

/// One more part of an element, where there is such an element.
fn add_part(
    elements: &mut Vec<Element>,
    parent: Option<usize>,
    number: usize,
) -> Result<(), NoMemory>
    ensures bases { OnOk result (map (λ element. element.base) elements.new.items ≡ map (λ element. element.base) elements.old.items) }
    ensures parts { OnOk result (AddsPart elements.old.items elements.new.items parent number) }
{
    match parent {
        Some(parent) => match elements.get_mut(parent) {
            Some(element) => {
                element.parts.push(number)?;
                Ok(())
            }
            None => Ok(()),
        },
        None => Ok(()),
    }
}

/// The elements with what each needs, for their order: its source is its base, and its children are its parts.
pub fn needs_of(
    alloc: Global,
    entries: &[Entry<'_>],
    sources: &[Option<usize>],
) -> Result<Vec<Element>, NoMemory>
    ensures { IfOk result (λ elements. IsGraph (map plain entries.now) sources.now elements.items) }
{
    let mut elements = bare(alloc, sources)?;
    for number in 0..entries.len() {
        add_part(&mut elements, entry_at(entries, number).parent, number)?;
    }
    Ok(elements)
}
