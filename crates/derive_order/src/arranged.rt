ghost use Rattle.std.specs.Prelude.{◌≡◌, None, length, map, IfOk, IfErr, OnOk};
ghost use Rattle.derive_order.specs.Arranging.{IsInOrder};
ghost use Rattle.derive_order.specs.Faults.{IsFaultAt, TellsCycle};
ghost use Rattle.derive_sources.specs.Entries.{plain};
ghost use Rattle.derive_sources.specs.Graphs.{IsGraph};
ghost use Rattle.derive_sources.specs.Missing.{TellsSources};
ghost use Rattle.derive_sources.specs.Numbers.{AreNumbered, Rows};
ghost use Rattle.derived_rows.specs.Dependence.{HasNoCircle};
ghost use Rattle.derived_rows.specs.Faults.{first_missing};

use crate::fault::OrderFault;
use derive_sources::{Entry, needs_of};
use need_order::{Element, NeedFault, ordered};
use std::alloc::Global;

/// Elements with what each depends on, and an order of them.
#[derive(Drop)]
pub struct Arranged {
    /// Each element with its source as base and its children as parts.
    pub elements: Vec<Element>,
    /// The numbers of all elements, each behind those on which it depends.
    pub order: Vec<usize>,
}

/// Why there is no order.
fn cycle_of(fault: NeedFault) -> OrderFault
    ghost all: { Rows }
    requires { TellsCycle all fault }
    ensures { IsFaultAt all result }
{
    match fault {
        NeedFault::Circle {
            first: Some(number),
        } => OrderFault::Cycle { number },
        NeedFault::Circle { first: None } => unreachable!(),
        NeedFault::Memory => OrderFault::Memory,
    }
}

/// The order of elements, each of which has its source. `Cycle` comes exactly where one depends on itself, with the first
/// that states a source.
pub(crate) fn arrange(
    alloc: Global,
    entries: &[Entry<'_>],
    sources: &[Option<usize>],
) -> Result<Arranged, OrderFault>
    ghost all: { Rows }
    requires numbered { AreNumbered all (map plain entries.now) }
    requires found { TellsSources all sources.now }
    requires whole { first_missing all ≡ None }
    ensures graph { IfOk result (λ made. IsGraph (map plain entries.now) sources.now made.elements.items) }
    ensures order { IfOk result IsInOrder }
    ensures no_circle { OnOk result (HasNoCircle all) }
    ensures circle { IfErr result (IsFaultAt all) }
{
    let elements = needs_of(alloc, entries, sources)?;
    match ordered(alloc, elements.as_slice()) {
        Ok(order) => Ok(Arranged { elements, order }),
        Err(fault) => Err(cycle_of(fault)),
    }
}
