ghost use Rattle.std.specs.Prelude.{◌≡◌, None, map, IfOk, IfErr, OnOk};
ghost use Rattle.derive_sources.specs.Entries.{plain};
ghost use Rattle.derive_sources.specs.Missing.{TellsSources, IsMissing};
ghost use Rattle.derive_sources.specs.Numbers.{Rows, items_of};
ghost use Rattle.derived_rows.specs.Faults.{first_missing};
ghost use Rattle.svd_model.specs.Facts.{IsDescribed};
ghost use Rattle.svd_model.specs.Trees.{device_rows, device_tree};

use crate::entry::Entry;
use crate::finding::{SourceFault, sources};
use crate::listing::entries_of;
use std::alloc::Global;
use svd_model::Device;

/// The elements of a device in document order, with the number of the source of each.
#[derive(Drop)]
pub struct Sourced<'a> {
    /// The elements, the device first.
    pub entries: Vec<Entry<'a>>,
    /// The number of the source of each, none for those that state no source.
    pub sources: Vec<Option<usize>>,
}

fn told_sources(alloc: Global, device: &Device) -> Result<Sourced<'_>, SourceFault>
    ghost all: { Rows }
    requires rows { all ≡ device_rows device.now }
    requires fact { IsDescribed device.now }
    ensures listed { IfOk result (λ made. map plain made.entries.items ≡ items_of (device_tree device.now)) }
    ensures found { IfOk result (λ made. TellsSources all made.sources.items) }
    ensures whole { OnOk result (first_missing all ≡ None) }
    ensures missing { IfErr result (IsMissing all) }
{
    let entries = entries_of(alloc, device)?;
    let sources = sources(alloc, entries.as_slice())?;
    Ok(Sourced { entries, sources })
}

/// The elements of a described device with the source of each. `Missing` comes exactly where an element states a
/// source and has none, with the number of the first one.
pub fn sources_of(alloc: Global, device: &Device) -> Result<Sourced<'_>, SourceFault>
    requires { IsDescribed device.now }
    ensures listed { IfOk result (λ made. map plain made.entries.items ≡ items_of (device_tree device.now)) }
    ensures found { IfOk result (λ made. TellsSources (device_rows device.now) made.sources.items) }
    ensures whole { OnOk result (first_missing (device_rows device.now) ≡ None) }
    ensures missing { IfErr result (IsMissing (device_rows device.now)) }
{
    told_sources(alloc, device)
}
