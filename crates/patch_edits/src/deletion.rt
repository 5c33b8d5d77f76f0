ghost use Rattle.std.specs.Prelude.{◌≡◌, ◌↔◌, IfOk, IsTrue, OnOk, not, filter, length, map, Some, None};
ghost use Rattle.glob_select.specs.Matching.{matches};
ghost use Rattle.patch_model.specs.Acts.{deletes};
ghost use Rattle.patch_edits.specs.Commands.{IsApplied, IsCounted, order_at};
ghost use Rattle.patch_edits.specs.Deletions.{deleted_below};
ghost use Rattle.patch_edits.specs.Edits.{Recounted, below_block};
ghost use Rattle.svd_model.specs.Facts.{IsDescribed};
ghost use Rattle.svd_model.specs.Trees.{device_rows};
ghost use Rattle.svd_rows.specs.Forest.{siblings};

use crate::counting::{Counted, matched_entries, matched_items, without};
use crate::edit::Edit;
use crate::walking::walk;
use glob_select::Pattern;
use indexmap::IndexMap;
use patch_sem::PatchFault;
use std::alloc::Global;
use svd_model::{Device, Field, Item, Peripheral, Sibling};

// What a deletion takes away from the children of one parent.
#[derive(Clone, Copy)]
pub(crate) struct Deletion<'a> {
    pub(crate) line: u32,
    pub(crate) pattern: &'a Pattern,
}

// Leaves the entries whose names the pattern doesn't match, and counts without the others; whether that are all.
fn keep_others<V: Counted>(
    pattern: &Pattern,
    total: &mut u64,
    entries: &mut IndexMap<Sibling, V>,
) -> bool
    ensures kept { entries.new.entries ≡ filter (λ entry. not (matches pattern.now entry.0.name)) entries.old.entries }
    ensures all { IsTrue result ↔ length entries.new.entries ≡ length entries.old.entries }
    ensures counted { Recounted total.old (siblings (map V.under entries.old.entries)) total.new (siblings (map V.under entries.new.entries)) }
{
    let before = entries.len();
    *total = without(*total, matched_entries(pattern, entries));
    entries.retain(|key, _| !pattern.matches(key.name.bytes()));
    entries.len() == before
}

// Leaves the items whose names the pattern doesn't match, and counts without the others; whether that are all.
fn keep_other_items(pattern: &Pattern, total: &mut u64, items: &mut Vec<Item>) -> bool
    ensures kept { items.new.items ≡ filter (λ item. not (matches pattern.now item.key.name)) items.old.items }
    ensures all { IsTrue result ↔ length items.new.items ≡ length items.old.items }
    ensures counted { Recounted total.old (below_block items.old.items) total.new (below_block items.new.items) }
{
    let before = items.len();
    *total = without(*total, matched_items(pattern, items.as_slice()));
    items.retain(|item| !pattern.matches(item.key.name.bytes()));
    items.len() == before
}

impl<'a> Edit for Deletion<'a> {
    ghost edit = { λ deletion. deleted_below deletion.line deletion.pattern.now };

    fn peripherals(
        &self,
        _alloc: Global,
        total: &mut u64,
        peripherals: &mut IndexMap<Sibling, Peripheral>,
    ) -> Result<(), PatchFault> {
        if keep_others(self.pattern, total, peripherals) {
            return Err(PatchFault::NoMatch { line: self.line });
        }
        Ok(())
    }

    fn items(
        &self,
        _alloc: Global,
        total: &mut u64,
        items: &mut Vec<Item>,
    ) -> Result<(), PatchFault> {
        if keep_other_items(self.pattern, total, items) {
            return Err(PatchFault::NoMatch { line: self.line });
        }
        Ok(())
    }

    fn fields(
        &self,
        _alloc: Global,
        total: &mut u64,
        fields: &mut IndexMap<Sibling, Field>,
    ) -> Result<(), PatchFault> {
        if keep_others(self.pattern, total, fields) {
            return Err(PatchFault::NoMatch { line: self.line });
        }
        Ok(())
    }

    #[tactic(auto, unfolding(crate::specs::Deletions::deleted_below))]
    fn line(&self) -> u32 {
        self.line
    }
}

/// Takes away each child that the pattern matches of each element that the parents lead to, with all that stands
/// below it (svdtools' `_delete`). `NoMatch` where it matches none of a parent, or the parent is a field. `total` is how many
/// elements the device has, before and after. What is left after a refusal isn't said.
pub fn delete(
    alloc: Global,
    line: u32,
    parents: &[Pattern],
    pattern: &Pattern,
    total: &mut u64,
    device: &mut Device,
) -> Result<(), PatchFault>
    requires described { IsDescribed device.old }
    requires counted { IsCounted device.old total.old }
    ensures applied { IsApplied (order_at line parents.now (deletes pattern.now)) (device_rows device.old) (device_rows device.new) result }
    ensures described { IfOk result (λ done. IsDescribed device.new) }
    ensures counted { OnOk result (IsCounted device.new total.new) }
{
    let deletion = Deletion { line, pattern };
    walk(alloc, &deletion, parents, total, &mut device.peripherals)
}
