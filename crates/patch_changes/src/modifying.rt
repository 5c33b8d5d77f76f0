ghost use Rattle.std.specs.Prelude.{IfOk, OnOk};
ghost use Rattle.patch_changes.specs.Changes.{changed_with};
ghost use Rattle.patch_edits.specs.Commands.{IsApplied, IsCounted, order_at};
ghost use Rattle.patch_model.specs.Acts.{modifies};
ghost use Rattle.patch_ready.specs.Ready.{IsNewName};
ghost use Rattle.svd_model.specs.Facts.{IsDescribed};
ghost use Rattle.svd_model.specs.Trees.{device_rows};

use crate::entries::{rename_entries, set_fields, set_peripherals};
use crate::items::{rename_items, set_items};
use crate::naming::new_name;
use glob_select::Pattern;
use indexmap::IndexMap;
use pac_base::{Name, Text};
use patch_edits::{Edit, matches_item, matches_one, walk};
use patch_sem::PatchFault;
use std::alloc::Global;
use svd_model::{Device, Field, Item, Peripheral, Sibling};

// What becomes of the children of one parent.
#[derive(Clone, Copy)]
struct Modifying<'a> {
    line: u32,
    pattern: &'a Pattern,
    keys: &'a [(Text, Text)],
    name: &'a Option<Name>,
}

impl<'a> Edit for Modifying<'a> {
    ghost edit = { λ modifying. changed_with modifying.line modifying.pattern.now modifying.keys.now modifying.name.now };

    fn peripherals(
        &self,
        alloc: Global,
        _total: &mut u64,
        peripherals: &mut IndexMap<Sibling, Peripheral>,
    ) -> Result<(), PatchFault> {
        if !matches_one(self.pattern, peripherals) {
            return Err(PatchFault::NoMatch { line: self.line });
        }
        let Ok(_) = set_peripherals(alloc, self.pattern, self.keys, peripherals) else {
            return Err(PatchFault::Memory);
        };
        rename_entries(alloc, self.line, self.pattern, self.name, peripherals)
    }

    fn items(
        &self,
        alloc: Global,
        _total: &mut u64,
        items: &mut Vec<Item>,
    ) -> Result<(), PatchFault> {
        if !matches_item(self.pattern, items.as_slice()) {
            return Err(PatchFault::NoMatch { line: self.line });
        }
        let Ok(_) = set_items(alloc, self.pattern, self.keys, items) else {
            return Err(PatchFault::Memory);
        };
        rename_items(alloc, self.line, self.pattern, self.name, items)
    }

    fn fields(
        &self,
        alloc: Global,
        _total: &mut u64,
        fields: &mut IndexMap<Sibling, Field>,
    ) -> Result<(), PatchFault> {
        if !matches_one(self.pattern, fields) {
            return Err(PatchFault::NoMatch { line: self.line });
        }
        let Ok(_) = set_fields(alloc, self.pattern, self.keys, fields) else {
            return Err(PatchFault::Memory);
        };
        rename_entries(alloc, self.line, self.pattern, self.name, fields)
    }

    #[tactic(auto, unfolding(crate::specs::Changes::changed_with))]
    fn line(&self) -> u32 {
        self.line
    }
}

/// Sets keys of each child that the pattern matches of each element that the parents lead to, and puts it under the new name
/// where the keys have one (svdtools' `_modify`). The first fault of the first parent that has one: `NoMatch` where the pattern
/// matches no child or the parent is a field, `AddExists` where two children would have the new name. `total` is how many elements
/// the device has, before and after. What is left after a refusal isn't said.
pub fn modify(
    alloc: Global,
    line: u32,
    parents: &[Pattern],
    pattern: &Pattern,
    keys: &[(Text, Text)],
    total: &mut u64,
    device: &mut Device,
) -> Result<(), PatchFault>
    requires described { IsDescribed device.old }
    requires counted { IsCounted device.old total.old }
    requires named { IsNewName keys.now }
    ensures applied { IsApplied (order_at line parents.now (modifies pattern.now keys.now)) (device_rows device.old) (device_rows device.new) result }
    ensures described { IfOk result (λ done. IsDescribed device.new) }
    ensures counted { OnOk result (IsCounted device.new total.new) }
{
    let Ok(name) = new_name(alloc, keys) else {
        return Err(PatchFault::Memory);
    };
    let modifying = Modifying {
        line,
        pattern,
        keys,
        name: &name,
    };
    walk(alloc, &modifying, parents, total, &mut device.peripherals)
}
