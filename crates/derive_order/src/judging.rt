//! Why a description isn't derived, or that nothing stands against it.
ghost use Rattle.std.specs.Prelude.{◌≡◌, ◌<◌, None, map, length, IfOk, IfErr, OnOk};
ghost use Rattle.derive_order.specs.Arranging.{AreArranged, IsGraphOf, IsInOrder, Known};
ghost use Rattle.derive_order.specs.Faults.{IsFaultAt};
ghost use Rattle.derive_sources.specs.Entries.{plain};
ghost use Rattle.derive_sources.specs.Graphs.{IsGraph};
ghost use Rattle.derive_sources.specs.Missing.{IsMissing, TellsSources};
ghost use Rattle.derive_sources.specs.Numbers.{AreNumbered, Rows, items_of};
ghost use Rattle.derived_rows.specs.Faults.{IsFaultless, first_missing};
ghost use Rattle.svd_model.specs.Facts.{IsDescribed};
ghost use Rattle.svd_model.specs.Trees.{device_rows, device_tree};

use crate::arranged::{Arranged, arrange};
use crate::fault::OrderFault;
use crate::limits::{amount, begun, first_deep};
use derive_sources::{Entry, SourceFault, Sourced, sources_of};
use std::alloc::Global;
use svd_model::Device;

/// What deriving goes by, of a device against which nothing stands: its elements, and their order.
#[derive(Drop)]
pub struct Derivable<'a> {
    /// The elements in document order, with the source of each.
    pub sourced: Sourced<'a>,
    /// What each depends on, and an order in which they can be derived.
    pub arranged: Arranged,
}

/// Why the sources of a description aren't told.
fn missing_of(fault: SourceFault) -> OrderFault
    ghost all: { Rows }
    requires { IsMissing all fault }
    ensures { IsFaultAt all result }
{
    match fault {
        SourceFault::Missing { number } => OrderFault::Missing { number },
        SourceFault::Memory => OrderFault::Memory,
    }
}

/// Whether derived elements are neither too deep nor too many.
fn within_limits(
    alloc: Global,
    entries: &[Entry<'_>],
    sources: &[Option<usize>],
    arranged: &Arranged,
) -> Result<(), OrderFault>
    ghost known: { Known }
    requires arranged { AreArranged known entries.now sources.now arranged.now }
    requires whole { first_missing known.all ≡ None }
    ensures faultless { OnOk result (IsFaultless known.all) }
    ensures fault { IfErr result (IsFaultAt known.all) }
{
    let begun = begun(alloc, entries, sources, arranged)?;
    if let Some(number) = first_deep(alloc, entries, sources, arranged, &begun)? {
        return Err(OrderFault::TooDeep { number });
    }
    let count = amount(alloc, entries, sources, arranged, &begun)?;
    if count > 1_048_576 {
        return Err(OrderFault::TooMany { count });
    }
    Ok(())
}

/// The order of elements that have their sources, where they can be derived.
fn judge(
    alloc: Global,
    entries: &[Entry<'_>],
    sources: &[Option<usize>],
) -> Result<Arranged, OrderFault>
    ghost all: { Rows }
    requires some { 0 < length entries.now }
    requires numbered { AreNumbered all (map plain entries.now) }
    requires found { TellsSources all sources.now }
    requires whole { first_missing all ≡ None }
    ensures graph { IfOk result (λ made. IsGraph (map plain entries.now) sources.now made.elements.items) }
    ensures order { IfOk result IsInOrder }
    ensures faultless { OnOk result (IsFaultless all) }
    ensures fault { IfErr result (IsFaultAt all) }
{
    let arranged = arrange(alloc, entries, sources)?;
    within_limits(alloc, entries, sources, &arranged)?;
    Ok(arranged)
}

fn judged_rows(alloc: Global, device: &Device) -> Result<Derivable<'_>, OrderFault>
    ghost all: { Rows }
    requires rows { all ≡ device_rows device.now }
    requires fact { IsDescribed device.now }
    ensures listed { IfOk result (λ made. map plain made.sourced.entries.items ≡ items_of (device_tree device.now)) }
    ensures found { IfOk result (λ made. TellsSources all made.sourced.sources.items) }
    ensures graph { IfOk result (λ made. IsGraphOf made.sourced made.arranged) }
    ensures order { IfOk result (λ made. IsInOrder made.arranged) }
    ensures faultless { OnOk result (IsFaultless all) }
    ensures fault { IfErr result (IsFaultAt all) }
{
    match sources_of(alloc, device) {
        Ok(sourced) => {
            let arranged = judge(
                alloc,
                sourced.entries.as_slice(),
                sourced.sources.as_slice(),
            )?;
            Ok(Derivable { sourced, arranged })
        }
        Err(fault) => Err(missing_of(fault)),
    }
}

/// The elements of a described device with the source of each and an order of them, where nothing stands against deriving
/// them. Else the first fault: the first element whose source is missing; then the first on a circle that states a source;
/// then the first peripheral below which a derived path has more than 64 steps; then more than 1,048,576 derived elements,
/// with their number. All is found on numbers of elements, and nothing is made.
pub fn judged(alloc: Global, device: &Device) -> Result<Derivable<'_>, OrderFault>
    requires { IsDescribed device.now }
    ensures listed { IfOk result (λ made. map plain made.sourced.entries.items ≡ items_of (device_tree device.now)) }
    ensures found { IfOk result (λ made. TellsSources (device_rows device.now) made.sourced.sources.items) }
    ensures graph { IfOk result (λ made. IsGraphOf made.sourced made.arranged) }
    ensures order { IfOk result (λ made. IsInOrder made.arranged) }
    ensures faultless { OnOk result (IsFaultless (device_rows device.now)) }
    ensures fault { IfErr result (IsFaultAt (device_rows device.now)) }
{
    judged_rows(alloc, device)
}
