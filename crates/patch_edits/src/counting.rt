// How many elements the children of one parent are that a pattern matches, each with all that stands below it.
ghost use Rattle.std.specs.Prelude.{◌≡◌, ◌≤◌, ◌+◌, ◌-◌, ◌^◌, filter, map, refl};
ghost use Rattle.glob_select.specs.Matching.{matches};
ghost use Rattle.patch_edits.specs.Edits.{AreCounted, HasBelow, Under, below_block};
ghost use Rattle.svd_model.specs.Counting.{elements_in, told_count};
ghost use Rattle.svd_model.specs.Trees.{field_under, peripheral_under};
ghost use Rattle.svd_rows.specs.Forest.{siblings};

use glob_select::Pattern;
use indexmap::IndexMap;
use svd_model::{Field, Item, Peripheral, Sibling};

/// What a map of a description holds under a key: a peripheral or a field.
pub(crate) trait Counted: Drop {
    // It as a sibling under the key.
    ghost under: { Under Self };

    // Each is counted as an element itself.
    ghost counts: { AreCounted under };

    /// How many elements stand below it; 2^64 - 1 where there are more.
    fn below(&self) -> u64
        ensures { HasBelow under self.now result };
}

impl Counted for Peripheral {
    ghost under = { peripheral_under };

    ghost counts = { λ _. refl };

    fn below(&self) -> u64 {
        self.elements()
    }
}

impl Counted for Field {
    ghost under = { field_under };

    ghost counts = { λ _. refl };

    fn below(&self) -> u64 {
        self.elements()
    }
}

/// A count without so many elements, which it has.
pub fn without(total: u64, gone: u64) -> u64
    ensures less { result ≡ total - gone }
    ensures fits { total ≤ 2 ^ 64 - 1 }
{
    total.saturating_sub(gone)
}

/// A count with one more element and those below it; 2^64 - 1 where there are more.
pub fn one_more(total: u64, below: u64) -> u64
    ensures { result ≡ told_count (total + told_count (1 + below)) }
{
    total.saturating_add(1_u64.saturating_add(below))
}

/// How many elements the entries are that the pattern matches; 2^64 - 1 where there are more.
pub(crate) fn matched_entries<V: Counted>(pattern: &Pattern, entries: &IndexMap<Sibling, V>) -> u64
    ensures { result ≡ told_count (elements_in (siblings (map V.under (filter (λ entry. matches pattern.now entry.0.name) entries.now.entries)))) }
{
    let mut total = 0;
    for (key, value) in entries {
        if pattern.matches(key.name.bytes()) {
            total = one_more(total, value.below());
        }
    }
    total
}

/// How many elements the items are that the pattern matches; 2^64 - 1 where there are more.
pub(crate) fn matched_items(pattern: &Pattern, items: &[Item]) -> u64
    ensures { result ≡ told_count (elements_in (below_block (filter (λ item. matches pattern.now item.key.name) items.now))) }
{
    let mut total = 0;
    for item in items {
        if pattern.matches(item.key.name.bytes()) {
            total = one_more(total, item.child.elements());
        }
    }
    total
}
