ghost use Rattle.std.specs.Prelude.{◌≡◌, IfOk, OnOk, map};
ghost use Rattle.patch_model.specs.Acts.{strips};
ghost use Rattle.patch_edits.specs.Commands.{IsApplied, IsCounted, order_at};
ghost use Rattle.patch_names.specs.Renaming.{Strips, entry_name, item_name, stripped_below, stripped_element, stripped_entry};
ghost use Rattle.svd_model.specs.Facts.{IsDescribed};
ghost use Rattle.svd_model.specs.Trees.{device_rows, item_under};

use crate::clash::{clash_in_entries, clash_in_items};
use crate::renaming::{strip_entries, strip_items};
use glob_select::Pattern;
use indexmap::IndexMap;
use pac_base::Text;
use patch_edits::{Edit, walk};
use patch_sem::PatchFault;
use std::alloc::Global;
use svd_model::{Device, Field, Item, Peripheral, Sibling};

// What is taken off the names of the children of one parent.
#[derive(Clone, Copy)]
struct Stripping<'a> {
    line: u32,
    prefix: &'a [u8],
}

fn strip_map<V: Drop>(
    alloc: Global,
    line: u32,
    prefix: &[u8],
    entries: &mut IndexMap<Sibling, V>,
) -> Result<(), PatchFault>
    ensures { Strips line prefix.now (map entry_name entries.old.entries) (entries.new.entries ≡ map (stripped_entry prefix.now) entries.old.entries) result }
{
    let Ok(found) = clash_in_entries(alloc, prefix, entries) else {
        return Err(PatchFault::Memory);
    };
    if let Some((first, second)) = found {
        return Err(PatchFault::StripClash {
            line,
            first,
            second,
        });
    }
    let Ok(_) = strip_entries(alloc, prefix, entries) else {
        return Err(PatchFault::Memory);
    };
    Ok(())
}

fn strip_list(
    alloc: Global,
    line: u32,
    prefix: &[u8],
    items: &mut Vec<Item>,
) -> Result<(), PatchFault>
    ensures { Strips line prefix.now (map item_name items.old.items) (map item_under items.new.items ≡ map (λ item. stripped_element prefix.now (item_under item)) items.old.items) result }
{
    let Ok(found) = clash_in_items(alloc, prefix, items.as_slice()) else {
        return Err(PatchFault::Memory);
    };
    if let Some((first, second)) = found {
        return Err(PatchFault::StripClash {
            line,
            first,
            second,
        });
    }
    let Ok(_) = strip_items(alloc, prefix, items) else {
        return Err(PatchFault::Memory);
    };
    Ok(())
}

impl<'a> Edit for Stripping<'a> {
    ghost edit = { λ stripping. stripped_below stripping.line stripping.prefix.now };

    fn peripherals(
        &self,
        alloc: Global,
        _total: &mut u64,
        peripherals: &mut IndexMap<Sibling, Peripheral>,
    ) -> Result<(), PatchFault> {
        strip_map(alloc, self.line, self.prefix, peripherals)
    }

    fn items(
        &self,
        alloc: Global,
        _total: &mut u64,
        items: &mut Vec<Item>,
    ) -> Result<(), PatchFault> {
        strip_list(alloc, self.line, self.prefix, items)
    }

    fn fields(
        &self,
        alloc: Global,
        _total: &mut u64,
        fields: &mut IndexMap<Sibling, Field>,
    ) -> Result<(), PatchFault> {
        strip_map(alloc, self.line, self.prefix, fields)
    }

    #[tactic(auto, unfolding(crate::specs::Renaming::stripped_below))]
    fn line(&self) -> u32 {
        self.line
    }
}

/// Takes the prefix off the names of the children of each element that the parents lead to, of those that begin with it and
/// whose rest is a name (svdtools' `_strip`). `StripClash` where two children of a parent would have one name then, with the
/// pair whose second stands first, and of these the one whose first does; `NoMatch` where the parent is a field. `total` is how
/// many elements the device has, before and after. What is left after a refusal isn't said.
pub fn strip(
    alloc: Global,
    line: u32,
    parents: &[Pattern],
    prefix: &Text,
    total: &mut u64,
    device: &mut Device,
) -> Result<(), PatchFault>
    requires described { IsDescribed device.old }
    requires counted { IsCounted device.old total.old }
    ensures applied { IsApplied (order_at line parents.now (strips prefix.now)) (device_rows device.old) (device_rows device.new) result }
    ensures described { IfOk result (λ done. IsDescribed device.new) }
    ensures counted { OnOk result (IsCounted device.new total.new) }
{
    let stripping = Stripping {
        line,
        prefix: prefix.as_str().as_bytes(),
    };
    walk(alloc, &stripping, parents, total, &mut device.peripherals)
}
