ghost use Rattle.std.specs.Prelude.{◌≡◌, IfOk, OnOk};
ghost use Rattle.std.specs.List.{list_any};
ghost use Rattle.glob_select.specs.Matching.{matches};
ghost use Rattle.patch_model.specs.Acts.{opens};
ghost use Rattle.patch_edits.specs.Commands.{IsApplied, IsCounted, order_at};
ghost use Rattle.patch_edits.specs.Deletions.{opened_below};
ghost use Rattle.svd_model.specs.Facts.{IsDescribed};
ghost use Rattle.svd_model.specs.Trees.{device_rows};

use crate::edit::Edit;
use crate::walking::walk;
use glob_select::Pattern;
use indexmap::IndexMap;
use patch_sem::PatchFault;
use std::alloc::Global;
use svd_model::{Device, Field, Item, Peripheral, Sibling};

// What is asked of the children of one parent in which a pattern is opened.
#[derive(Clone, Copy)]
pub(crate) struct Opening<'a> {
    line: u32,
    pattern: &'a Pattern,
}

/// Whether the pattern matches the name of an entry.
pub fn matches_one<V>(pattern: &Pattern, entries: &IndexMap<Sibling, V>) -> bool
    ensures { result ≡ list_any (λ entry. matches pattern.now entry.0.name) entries.now.entries }
{
    for (key, _) in entries {
        if pattern.matches(key.name.bytes()) {
            return true;
        }
    }
    false
}

/// Whether the pattern matches the name of an item.
pub fn matches_item(pattern: &Pattern, items: &[Item]) -> bool
    ensures { result ≡ list_any (λ item. matches pattern.now item.key.name) items.now }
{
    for item in items {
        if pattern.matches(item.key.name.bytes()) {
            return true;
        }
    }
    false
}

impl<'a> Edit for Opening<'a> {
    ghost edit = { λ opening. opened_below opening.line opening.pattern.now };

    fn peripherals(
        &self,
        _alloc: Global,
        _total: &mut u64,
        peripherals: &mut IndexMap<Sibling, Peripheral>,
    ) -> Result<(), PatchFault> {
        if matches_one(self.pattern, peripherals) {
            return Ok(());
        }
        Err(PatchFault::NoMatch { line: self.line })
    }

    fn items(
        &self,
        _alloc: Global,
        _total: &mut u64,
        items: &mut Vec<Item>,
    ) -> Result<(), PatchFault> {
        if matches_item(self.pattern, items.as_slice()) {
            return Ok(());
        }
        Err(PatchFault::NoMatch { line: self.line })
    }

    fn fields(
        &self,
        _alloc: Global,
        _total: &mut u64,
        fields: &mut IndexMap<Sibling, Field>,
    ) -> Result<(), PatchFault> {
        if matches_one(self.pattern, fields) {
            return Ok(());
        }
        Err(PatchFault::NoMatch { line: self.line })
    }

    #[tactic(auto, unfolding(crate::specs::Deletions::opened_below))]
    fn line(&self) -> u32 {
        self.line
    }
}

/// Opens a pattern in each element that the parents lead to, which leaves all as it is. `NoMatch` where it matches no child
/// of a parent, or the parent is a field. `total` is how many elements the device has, before and after.
pub fn open(
    alloc: Global,
    line: u32,
    parents: &[Pattern],
    pattern: &Pattern,
    total: &mut u64,
    device: &mut Device,
) -> Result<(), PatchFault>
    requires described { IsDescribed device.old }
    requires counted { IsCounted device.old total.old }
    ensures applied { IsApplied (order_at line parents.now (opens pattern.now)) (device_rows device.old) (device_rows device.new) result }
    ensures described { IfOk result (λ done. IsDescribed device.new) }
    ensures counted { OnOk result (IsCounted device.new total.new) }
{
    let opening = Opening { line, pattern };
    walk(alloc, &opening, parents, total, &mut device.peripherals)
}
