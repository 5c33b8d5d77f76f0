//! A table of all elements, settled one after the other, each behind its source.
ghost use Rattle.std.specs.Prelude.{◌≡◌, ◌<◌, length, IfOk};
ghost use Rattle.derive_build.specs.Filling.{AllTake, Comes, IsFilled, TakesAt};
ghost use Rattle.derive_build.specs.Nodes.{own_node};
ghost use Rattle.derive_build.specs.Tables.{owns_in};
ghost use Rattle.derive_build.specs.Taking.{keys_by};
ghost use Rattle.derive_sources.specs.Graphs.{parts_at};
ghost use Rattle.derived_graph.specs.Graphs.{NeedsSources, source_at};
ghost use Rattle.need_order.specs.Needs.{IsOrder, needs};

use crate::keys::keys_of;
use crate::own::Own;
use crate::settled::{Settled, copied, taken_from};
use need_order::Element;
use pac_base::NoMemory;
use std::alloc::Global;

/// The source of an element.
fn source_of(sources: &[Option<usize>], number: usize) -> Option<usize>
    ensures { result ≡ source_at sources.now number }
{
    match sources.get(number) {
        Some(source) => *source,
        None => None,
    }
}

/// The parts of an element.
#[tactic(auto, unfolding(derive_sources::specs::Graphs::parts_at))]
fn parts_of(elements: &[Element], number: usize) -> &[usize]
    ensures { result.now ≡ parts_at elements.now number }
{
    match elements.get(number) {
        Some(element) => element.parts.as_slice(),
        None => &[],
    }
}

/// An element as it was described, with these children.
fn described<'a>(alloc: Global, own: Own<'a>, children: &[usize]) -> Result<Settled<'a>, NoMemory>
    ensures own { IfOk result (λ made. made.own ≡ own.entry) }
    ensures keys { IfOk result (λ made. keys_by made.own made.keys ≡ (own_node own.entry).keys) }
    ensures children { IfOk result (λ made. made.children.items ≡ children.now) }
{
    Ok(Settled {
        own,
        keys: keys_of(own),
        children: copied(alloc, children)?,
    })
}

/// What the element of a number comes to, where its source is settled.
fn settled<'a>(
    alloc: Global,
    owns: &[Own<'a>],
    sources: &[Option<usize>],
    elements: &[Element],
    table: &[Settled<'a>],
    number: usize,
) -> Result<Settled<'a>, NoMemory>
    requires inside { number < length owns.now }
    requires owns { owns_in table.now ≡ owns.now }
    requires takes { TakesAt owns.now sources.now number }
    ensures { IfOk result (Comes owns.now sources.now elements.now table.now number) }
{
    let own = described(alloc, owns[number], parts_of(elements, number))?;
    match source_of(sources, number) {
        Some(number) => match table.get(number) {
            Some(source) => taken_from(alloc, owns, &own, source),
            None => unreachable!(),
        },
        None => Ok(own),
    }
}

/// All elements, with nothing settled.
#[tactic(auto, unfolding(crate::specs::Tables::owns_in))]
fn unsettled<'a>(alloc: Global, owns: &[Own<'a>]) -> Result<Vec<Settled<'a>>, NoMemory>
    ensures { IfOk result (λ made. owns_in made.items ≡ owns.now) }
{
    let mut made = Vec::new(alloc);
    for own in owns {
        made.push(described(alloc, *own, &[])?)?;
    }
    Ok(made)
}

/// All elements, settled along an order in which each stands behind its source.
pub(crate) fn settle<'a>(
    alloc: Global,
    owns: &[Own<'a>],
    sources: &[Option<usize>],
    elements: &[Element],
    order: &[usize],
) -> Result<Vec<Settled<'a>>, NoMemory>
    requires order { IsOrder (needs elements.now) (length owns.now) order.now }
    requires needed { NeedsSources sources.now (needs elements.now) }
    requires takes { AllTake owns.now sources.now }
    ensures { IfOk result (λ made. IsFilled owns.now sources.now elements.now made.items order.now) }
{
    let mut table = unsettled(alloc, owns)?;
    for number in order {
        let made = settled(alloc, owns, sources, elements, table.as_slice(), *number)?;
        table[*number] = made;
    }
    Ok(table)
}
