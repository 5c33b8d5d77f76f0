//! Copies of what elements hold.
ghost use Rattle.std.specs.Prelude.{◌≡◌, IfOk, option_map};
ghost use Rattle.derive_build.specs.Taking.{dim_by};

use crate::keys::Keys;
use pac_base::{Name, NoMemory, Seq};
use std::alloc::Global;
use svd_model::{Dim, Sibling};
use svd_values::{DimIndex, Words};

/// The same key once more.
pub(crate) fn copied_key(alloc: Global, key: &Sibling) -> Result<Sibling, NoMemory>
    ensures { IfOk result (λ made. made ≡ key.now) }
{
    Ok(Sibling {
        name: key.name.copy(alloc)?,
        number: key.number,
    })
}

/// A name that is lent, once more.
pub(crate) fn copied_name(alloc: Global, name: Option<&Name>) -> Result<Option<Name>, NoMemory>
    ensures { IfOk result (λ made. made ≡ option_map (λ lent. lent.now) name.entry) }
{
    match name {
        Some(name) => Ok(Some(name.copy(alloc)?)),
        None => Ok(None),
    }
}

fn copied_words(alloc: Global, words: &Words) -> Result<Words, NoMemory>
    ensures { IfOk result (λ made. made ≡ words.now) }
{
    let mut made = Seq::new(alloc);
    for word in words.as_slice() {
        made.push(word.copy(alloc)?)?;
    }
    Ok(made)
}

fn copied_index(alloc: Global, index: &DimIndex) -> Result<DimIndex, NoMemory>
    ensures { IfOk result (λ made. made ≡ index.now) }
{
    match index {
        DimIndex::Numbers { first, last } => Ok(DimIndex::Numbers {
            first: *first,
            last: *last,
        }),
        DimIndex::Letters { first, last } => Ok(DimIndex::Letters {
            first: *first,
            last: *last,
        }),
        DimIndex::Words(words) => Ok(DimIndex::Words(copied_words(alloc, words)?)),
    }
}

fn copied_index_if_stated(
    alloc: Global,
    index: Option<&DimIndex>,
) -> Result<Option<DimIndex>, NoMemory>
    ensures { IfOk result (λ made. made ≡ option_map (λ lent. lent.now) index.entry) }
{
    match index {
        Some(index) => Ok(Some(copied_index(alloc, index)?)),
        None => Ok(None),
    }
}

/// The dimension that keys state.
pub(crate) fn dim_of(alloc: Global, keys: &Keys<'_>) -> Result<Dim, NoMemory>
    ensures { IfOk result (λ made. made ≡ dim_by keys.now) }
{
    Ok(Dim {
        count: keys.count,
        step: keys.step,
        index: copied_index_if_stated(alloc, keys.index)?,
    })
}
