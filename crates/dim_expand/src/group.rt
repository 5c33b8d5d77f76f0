ghost use Rattle.std.specs.Prelude.{◌≡◌, IfOk, option_map};
ghost use Rattle.dim_expand.specs.Walks.{capped_name, group_at, group_dim, group_start, list_count};

use crate::index::index_text;
use crate::mark::{indexed, is_list_name};
use pac_base::{Name, NoMemory};
use std::alloc::Global;
use svd_model::{Dim, copied_dim};
use svd_values::Place;

/// How many members a list has, where elements of its kind may be arrays or not; none of an element that is no list.
pub fn list_count(arrays: bool, name: &Name, dim: &Dim) -> Option<u64>
    ensures { result ≡ list_count arrays name.now dim.now.count }
{
    if is_list_name(arrays, name) {
        Some(dim.count.unwrap_or(0))
    } else {
        None
    }
}

/// The group of this place. An element that is no list is its own one group.
pub fn group_at(count: Option<u64>, place: u64) -> Option<u64>
    ensures { result ≡ group_at count place }
{
    match count {
        Some(_) => Some(place),
        None => None,
    }
}

/// The name of a group of an element: that of the element, or with the index of the member of this place.
pub fn group_name(
    alloc: Global,
    name: &Name,
    dim: &Dim,
    group: Option<u64>,
) -> Result<Name, NoMemory>
    ensures { IfOk result (λ made. made ≡ capped_name name.now dim.now.index group) }
{
    match group {
        Some(place) => {
            let index = index_text(alloc, dim, place)?;
            indexed(alloc, name, index.as_slice())
        }
        None => name.copy(alloc),
    }
}

/// The dimension of a group: a member of a list has none.
pub fn group_dim(alloc: Global, dim: &Dim, group: Option<u64>) -> Result<Dim, NoMemory>
    ensures { IfOk result (λ made. made ≡ group_dim dim.now group) }
{
    match group {
        Some(_) => Ok(Dim {
            count: None,
            step: None,
            index: None,
        }),
        None => copied_dim(alloc, dim),
    }
}

/// Where a group starts.
pub fn group_start(start: u128, dim: &Dim, group: Option<u64>) -> u128
    ensures { result ≡ group_start start dim.now.step group }
{
    match group {
        Some(place) => {
            let step = dim.step.unwrap_or(0);
            start.saturating_add(place as u128 * step as u128)
        }
        None => start,
    }
}

/// Which bits a group covers.
pub fn group_place(place: Place, dim: &Dim, group: Option<u64>) -> Place
    ensures width { result.width ≡ place.width }
    ensures offset { result.offset ≡ option_map (λ start. group_start start dim.now.step group) place.offset }
{
    Place {
        offset: match place.offset {
            Some(start) => Some(group_start(start, dim, group)),
            None => None,
        },
        width: place.width,
    }
}
