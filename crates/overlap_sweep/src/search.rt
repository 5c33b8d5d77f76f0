ghost use Rattle.std.specs.Prelude.{◌≡◌, ◌+◌, ◌≤◌, ◌<◌, [], take, length, option_map, slice_get, IfOk, OnOk, None, Some};
ghost use Rattle.std.specs.List.{AllByRecursion};
ghost use Rattle.overlap_sweep.specs.Search.{IsEven, Keeps, block_of, first_pair, kept_in};
ghost use Rattle.overlap_sweep.specs.Sought.{IsMeeting, IsSought};
ghost use Rattle.overlap_sweep.specs.Spots.{meets};

use crate::spot::Spot;
use indexmap::IndexMap;
use pac_base::NoMemory;
use std::alloc::Global;

/// Where a member is kept: its block of eight bytes, and its rank among those that are kept there.
#[derive(Clone, Copy, PartialEq, Eq, Hash)]
pub struct Slot {
    /// The address of the block, divided by eight.
    pub block: u64,
    /// How many are kept there before it.
    pub rank: u64,
}

/// Two members that share a byte and may not, by their places.
#[derive(Clone, Copy, Debug, PartialEq, Eq)]
pub struct Meeting {
    /// The one that stands first.
    pub first: usize,
    /// The other.
    pub second: usize,
}

/// What is found of a member among those before it.
#[derive(Clone, Copy, Debug, PartialEq, Eq)]
pub enum Sought {
    /// It meets that of this place.
    Met(usize),
    /// It meets none, and this is the next rank in its block.
    Free(u64),
}

/// Whether there is a member at this place, and it meets the other.
fn meets_at(spots: &[Spot], place: usize, other: &Spot) -> bool
    ensures { result ≡ Rattle.overlap_sweep.specs.Sought.meets_at spots.now place other.now }
{
    match spots.get(place) {
        Some(spot) => spot.meets(other),
        None => false,
    }
}

/// The first of the members before this place that meets the one at it.
fn seek(seen: &IndexMap<Slot, usize>, spots: &[Spot], place: usize, spot: &Spot) -> Sought
    requires even { AllByRecursion IsEven spots.now }
    requires place { slice_get spots.now place ≡ Some spot.now }
    requires keeps { Keeps (take place spots.now) seen.now.entries }
    ensures { IsSought spots.now place spot.now result }
{
    let block = spot.start / 8;
    for rank in 0..place as u64 {
        match seen.get(&Slot { block, rank }) {
            Some(earlier) => {
                if meets_at(spots, *earlier, spot) {
                    return Sought::Met(*earlier);
                }
            }
            None => return Sought::Free(rank),
        }
    }
    Sought::Free(place as u64)
}

/// Keeps the member of this place, unless it may share its bytes with all.
fn keep(
    seen: &mut IndexMap<Slot, usize>,
    spots: &[Spot],
    place: usize,
    spot: &Spot,
    rank: u64,
) -> Result<(), NoMemory>
    requires place { slice_get spots.now place ≡ Some spot.now }
    requires rank { rank ≡ length (kept_in (block_of spot.now) (take place spots.now)) }
    requires keeps { Keeps (take place spots.now) seen.old.entries }
    ensures { OnOk result (Keeps (take (place + 1) spots.now) seen.new.entries) }
{
    let _ = spots;
    if !spot.grouped {
        let block = spot.start / 8;
        seen.insert(Slot { block, rank }, place)?;
    }
    Ok(())
}

/// The first member that shares a byte with one before it where it may not, and the first of those before it.
pub fn first_meeting(alloc: Global, spots: &[Spot]) -> Result<Option<Meeting>, NoMemory>
    requires { AllByRecursion IsEven spots.now }
    ensures { IfOk result (λ found. IsMeeting spots.now (first_pair meets [] spots.now) found) }
{
    let mut seen = IndexMap::new(alloc);
    for place in 0..spots.len() {
        let spot = &spots[place];
        match seek(&seen, spots, place, spot) {
            Sought::Met(first) => {
                return Ok(Some(Meeting {
                    first,
                    second: place,
                }));
            }
            Sought::Free(rank) => keep(&mut seen, spots, place, spot, rank)?,
        }
    }
    Ok(None)
}
