//! The derived device, made of its elements.
ghost use Rattle.std.specs.Prelude.{◌≡◌, length, IfOk};
ghost use Rattle.derive_sources.specs.Graphs.{IsGraph};
ghost use Rattle.derive_sources.specs.Numbers.{items_of};
ghost use Rattle.derived_graph.specs.Graphs.{TellsSources};
ghost use Rattle.derived_rows.specs.Deriving.{derived_rows};
ghost use Rattle.derived_rows.specs.Faults.{IsFaultless};
ghost use Rattle.need_order.specs.Needs.{IsOrder, needs};
ghost use Rattle.svd_model.specs.Facts.{IsDerived, IsDescribed};
ghost use Rattle.svd_model.specs.Trees.{device_rows, device_tree};

use crate::device::device_of;
use crate::listing::owns_of;
use crate::table::settle;
use need_order::Element;
use pac_base::NoMemory;
use std::alloc::Global;
use svd_model::Device;

/// How many levels there are below a peripheral: a derived path has at most 64 steps.
const LEVELS: usize = 63;

/// A description after deriving, where it isn't refused: each element with what it takes from its source. `sources` are
/// the numbers of the sources of all elements, in document order, `elements` are those with their sources and their
/// children, and `order` has each behind those on which it depends.
pub fn built(
    alloc: Global,
    device: &Device,
    sources: &[Option<usize>],
    elements: &[Element],
    order: &[usize],
) -> Result<Device, NoMemory>
    requires described { IsDescribed device.now }
    requires found { TellsSources (device_rows device.now) sources.now }
    requires graph { IsGraph (items_of (device_tree device.now)) sources.now elements.now }
    requires faultless { IsFaultless (device_rows device.now) }
    requires order { IsOrder (needs elements.now) (length elements.now) order.now }
    ensures rows { IfOk result (λ made. device_rows made ≡ derived_rows (device_rows device.now)) }
    ensures fact { IfOk result IsDerived }
{
    let owns = owns_of(alloc, device)?;
    let filled = settle(alloc, owns.as_slice(), sources, elements, order)?;
    let table = filled.as_slice();
    match table.get(0) {
        Some(first) => device_of(alloc, table, first, device, LEVELS),
        None => unreachable!(),
    }
}
