ghost use Rattle.std.specs.Prelude.{◌≡◌, ◌&&◌, IfOk, List, ℕ, is_none, option_map};
ghost use Rattle.std.specs.List.{list_all};
ghost use Rattle.std.specs.Map.{lookup};
ghost use Rattle.std.specs.Str.{bytes_eq};
ghost use Rattle.frag_sem.specs.AddressEnds.{addresses_fit, end_fits};
ghost use Rattle.frag_sem.specs.Modules.{all_blocks, top_block};
ghost use Rattle.frag_tree.specs.Trees.{crate_tree};
ghost use Rattle.frag_rules.specs.Bodies.{misfit};
ghost use Rattle.frag_rules.specs.Measures.{block_measured, end_found, measure_seen, size_fits};

use crate::measure::{Measure, Sizes, measure_block};
use crate::named::{HasName, Named};
use crate::parts::laid_out;
use crate::place::earlier;
use frag_tree::{Crate, Slot};
use pac_base::NoMemory;
use std::alloc::Global;

/// The blocks at the top by their names, and the sizes of all blocks.
fn measure_tops<'a>(
    alloc: Global,
    krate: &'a Crate,
    sizes: &mut Sizes,
) -> Result<Named<'a, Measure>, NoMemory>
    ensures tops { IfOk result (λ tops. (name : List ℕ) → option_map measure_seen (lookup (bytes_eq name) tops) ≡ option_map block_measured (top_block name (crate_tree krate.now).blocks)) }
    ensures sizes { IfOk result (λ _. is_none sizes.new.large ≡ (is_none sizes.old.large && list_all size_fits (all_blocks (crate_tree krate.now)))) }
{
    let mut tops = Named::new(alloc);
    let mut rest = krate.blocks.as_slice();
    while let Some((first, others)) = rest.split_first() {
        let measure = measure_block(first, alloc, sizes)?;
        tops.keep(first.own_name(), measure)?;
        rest = others;
    }
    Ok(tops)
}

/// Whether an end behind a start is at or below 2^64.
fn end_fits(start: u64, end: Option<u128>) -> bool
    ensures { result ≡ end_fits start end }
{
    match end {
        None => true,
        Some(end) => u128::from(start).saturating_add(end) <= 0x1_0000_0000_0000_0000,
    }
}

/// The end of the last register of a slot, in bytes from the slot's address.
fn end_of(tops: &Named<'_, Measure>, slot: &Slot) -> Option<u128>
    ensures { result ≡ end_found (lookup (bytes_eq slot.now.block) tops.now) }
{
    match tops.get(slot.block.bytes()) {
        Some(measure) => measure.end,
        None => None,
    }
}

fn slot_out_of_range(tops: &Named<'_, Measure>, slots: &[Slot]) -> Option<usize>
    ensures { result ≡ misfit (λ slot. end_fits slot.address (end_found (lookup (bytes_eq slot.block) tops.now))) slots.now }
{
    slots
        .iter()
        .position(|slot| !end_fits(slot.address, end_of(tops, slot)))
}

/// A block, told by how many blocks stand before it, as an item of the text.
fn block_item(alloc: Global, krate: &Crate, block: Option<usize>) -> Result<Option<usize>, NoMemory>
    ensures { IfOk result (λ item. is_none item ≡ is_none block) }
{
    match block {
        Some(block) => Ok(Some(item_of_block(alloc, krate, block)?)),
        None => Ok(None),
    }
}

fn item_of_block(alloc: Global, krate: &Crate, block: usize) -> Result<usize, NoMemory> {
    let parts = laid_out(alloc, krate)?;
    match parts.blocks.get(block) {
        Some(listed) => Ok(listed.item),
        None => Ok(0),
    }
}

/// The first slot from which a register ends behind 2^64, or the first block that is larger than that.
pub(crate) fn out_of_range(alloc: Global, krate: &Crate) -> Result<Option<usize>, NoMemory>
    ensures { IfOk result (λ item. is_none item ≡ addresses_fit (crate_tree krate.now)) }
{
    let mut sizes = Sizes {
        passed: 0,
        large: None,
    };
    let tops = measure_tops(alloc, krate, &mut sizes)?;
    let slot = slot_out_of_range(&tops, krate.slots.as_slice());
    let large = block_item(alloc, krate, sizes.large)?;
    Ok(earlier(slot, large))
}
