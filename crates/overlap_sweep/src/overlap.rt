ghost use Rattle.std.specs.Prelude.{◌≡◌, [], ◌++◌, ◌∷◌, map, take, IfOk, OnOk, option_map};
ghost use Rattle.std.specs.List.{AllByRecursion};
ghost use Rattle.overlap_sweep.specs.Overlaps.{first_shared, told_in};
ghost use Rattle.overlap_sweep.specs.Search.{IsEven, first_pair};
ghost use Rattle.overlap_sweep.specs.Sought.{plain_way, shared_in, told_at, told_pair};
ghost use Rattle.overlap_sweep.specs.Spots.{meets, told_way};
ghost use Rattle.svd_model.specs.Checking.{bad_widths, fields_past, past_ranges, uneven};
ghost use Rattle.svd_model.specs.Facts.{IsUnfolded};
ghost use Rattle.svd_model.specs.Trees.{device_rows};

use crate::field::FieldPair;
use crate::search::first_meeting;
use crate::spot::{Spot, Way};
use crate::walk::spots;
use pac_base::{NoMemory, Path, Seq, Step};
use std::alloc::Global;
use svd_model::Device;

/// Two members that share what they may not.
#[derive(Debug, Drop)]
pub struct Overlap {
    /// The one that stands first.
    pub first: Path,
    /// The other.
    pub second: Path,
}

/// What two members share.
#[derive(Debug, Drop)]
pub enum Shared {
    /// A bit, as fields of one register.
    Fields(Overlap),
    /// A byte, as registers of one peripheral.
    Registers(Overlap),
}

/// The way as it is told.
fn told(alloc: Global, way: &[Way]) -> Result<Path, NoMemory>
    ensures { IfOk result (λ path. path ≡ told_way way.now) }
{
    let mut path = Seq::new(alloc);
    for step in way {
        path.push(Step {
            name: step.name.copy(alloc)?,
            index: step.index,
        })?;
    }
    Ok(path)
}

/// The way to the member at this place, as it is told.
fn told_at(alloc: Global, spots: &[Spot], place: usize) -> Result<Path, NoMemory>
    ensures { IfOk result (λ path. path ≡ told_at spots.now place) }
{
    match spots.get(place) {
        Some(spot) => told(alloc, spot.way.as_slice()),
        None => Ok(Seq::new(alloc)),
    }
}

/// The way without indexes and then this step, as they are told.
fn told_in(alloc: Global, way: &[Way], last: &Step) -> Result<Path, NoMemory>
    ensures { IfOk result (λ path. path ≡ plain_way way.now ++ last.now ∷ []) }
{
    let mut path = Seq::new(alloc);
    for step in way {
        path.push(Step {
            name: step.name.copy(alloc)?,
            index: None,
        })?;
    }
    path.push(Step {
        name: last.name.copy(alloc)?,
        index: last.index,
    })?;
    Ok(path)
}

/// The members of fields of the register to which this way leads.
fn shared_of(
    alloc: Global,
    way: &[Way],
    shared: &Option<FieldPair>,
) -> Result<Option<Overlap>, NoMemory>
    ensures { IfOk result (λ found. found ≡ option_map (told_in (plain_way way.now)) shared.now) }
{
    match shared {
        Some(pair) => Ok(Some(Overlap {
            first: told_in(alloc, way, &pair.first)?,
            second: told_in(alloc, way, &pair.second)?,
        })),
        None => Ok(None),
    }
}

/// The first two members of fields of one register that share a bit and may not.
fn field_overlap(alloc: Global, spots: &[Spot]) -> Result<Option<Overlap>, NoMemory>
    ensures { IfOk result (λ found. found ≡ shared_in spots.now) }
{
    for spot in spots {
        let found = shared_of(alloc, spot.way.as_slice(), &spot.shared)?;
        if let Some(overlap) = found {
            return Ok(Some(overlap));
        }
    }
    Ok(None)
}

/// The first two members of registers that share a byte and may not.
fn register_overlap(alloc: Global, spots: &[Spot]) -> Result<Option<Overlap>, NoMemory>
    requires { AllByRecursion IsEven spots.now }
    ensures { IfOk result (λ found. found ≡ option_map told_pair (first_pair meets [] spots.now)) }
{
    match first_meeting(alloc, spots)? {
        Some(meeting) => Ok(Some(Overlap {
            first: told_at(alloc, spots, meeting.first)?,
            second: told_at(alloc, spots, meeting.second)?,
        })),
        None => Ok(None),
    }
}

/// The first two members of fields of one register that share a bit and are both readable or both writable; where there
/// are none, the first two members of registers of one peripheral that share a byte and may not. Of several pairs the
/// first is that whose second, and then whose first, comes first in document order. Every register has a size, lies at
/// a multiple of its bytes within the addresses, and holds its fields.
pub fn first_overlap(alloc: Global, device: &Device) -> Result<Option<Shared>, NoMemory>
    requires unfolded { IsUnfolded device.now }
    requires widths { bad_widths (device_rows device.now) ≡ [] }
    requires ranges { past_ranges (device_rows device.now) ≡ [] }
    requires even { uneven (device_rows device.now) ≡ [] }
    requires fields { fields_past (device_rows device.now) ≡ [] }
    ensures { IfOk result (λ found. found ≡ first_shared (device_rows device.now)) }
{
    let made = spots(alloc, device)?;
    let all = made.as_slice();
    let fields = field_overlap(alloc, all)?;
    if let Some(overlap) = fields {
        return Ok(Some(Shared::Fields(overlap)));
    }
    match register_overlap(alloc, all)? {
        Some(overlap) => Ok(Some(Shared::Registers(overlap))),
        None => Ok(None),
    }
}
