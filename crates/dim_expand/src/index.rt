ghost use Rattle.std.specs.Prelude.{◌≡◌, ◌+◌, ◌∷◌, [], min, get_or, decimal, IfOk};
ghost use Rattle.svd_model.specs.Counting.{told_count};
ghost use Rattle.dim_expand.specs.Indexes.{indexes_given};
ghost use Rattle.dim_expand.specs.Walks.{capped_index};

use itoa::Buffer;
use pac_base::NoMemory;
use std::alloc::Global;
use svd_model::Dim;
use svd_values::{DimIndex, Words};

/// How many indexes the list gives; 2^64 - 1 where it gives more.
pub fn indexes_given(index: &DimIndex) -> u64
    ensures { result ≡ told_count (indexes_given index.now) }
{
    match index {
        DimIndex::Numbers { first, last } => last.saturating_sub(*first).saturating_add(1),
        DimIndex::Letters { first, last } => u64::from(last.saturating_sub(*first)) + 1,
        DimIndex::Words(words) => words.len() as u64,
    }
}

fn digits(alloc: Global, number: u128) -> Result<Vec<u8>, NoMemory>
    ensures { IfOk result (λ made. made.items ≡ decimal number) }
{
    let mut buffer = Buffer::new();
    Ok(Vec::from_slice(alloc, buffer.format(number).as_bytes())?)
}

/// The letter that stands this many behind the first.
fn letter(alloc: Global, first: u8, place: u64) -> Result<Vec<u8>, NoMemory>
    ensures { IfOk result (λ made. made.items ≡ min (first + min place 255) 255 ∷ []) }
{
    let letter = first.saturating_add(place.min(255) as u8);
    Ok(Vec::from_slice(alloc, &[letter])?)
}

fn word(alloc: Global, words: &Words, place: u64) -> Result<Vec<u8>, NoMemory>
    ensures { IfOk result (λ made. made.items ≡ get_or words.now place []) }
{
    match words.get(place as usize) {
        Some(word) => Ok(Vec::from_slice(alloc, word.bytes())?),
        None => Ok(Vec::new(alloc)),
    }
}

/// The index of the member of this place.
pub fn index_text(alloc: Global, dim: &Dim, place: u64) -> Result<Vec<u8>, NoMemory>
    ensures { IfOk result (λ made. made.items ≡ capped_index dim.now.index place) }
{
    match &dim.index {
        Some(DimIndex::Numbers { first, .. }) => digits(alloc, *first as u128 + place as u128),
        Some(DimIndex::Letters { first, .. }) => letter(alloc, *first, place),
        Some(DimIndex::Words(words)) => word(alloc, words, place),
        None => digits(alloc, place as u128),
    }
}
