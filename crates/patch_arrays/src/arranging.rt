ghost use Rattle.std.specs.Prelude.{◌≡◌, ◌⊎◌, IfOk, OnOk, map};
ghost use Rattle.std.specs.List.{IsDistinct as AreDistinct, list_any};
ghost use Rattle.std.specs.Str.{bytes_eq};
ghost use Rattle.patch_edits.specs.Commands.{IsApplied, IsCounted, order_at};
ghost use Rattle.patch_edits.specs.Edits.{Edited, Recounts, below_block};
ghost use Rattle.patch_model.specs.Acts.{arrays};
ghost use Rattle.patch_sem.specs.declared.fault.PatchFault.TheVariants.{AddExists, Memory};
ghost use Rattle.patch_arrays.specs.Arranging.{arrayed_below, arraying_in};
ghost use Rattle.patch_arrays.specs.Makings.{Arranges, Arrays, MakesCounted, capped};
ghost use Rattle.patch_arrays.specs.Members.{entry_key, listed, under_key};
ghost use Rattle.svd_model.proofs.Copies.{sibling_eq};
ghost use Rattle.svd_model.specs.Facts.{IsDescribed};
ghost use Rattle.svd_model.specs.Trees.{device_rows, item_under};
ghost use Rattle.svd_rows.specs.Forest.{siblings};

use crate::making::arrange_parted;
use crate::member::Member;
use crate::parting::part;
use crate::shelf::{children_of, entries_of, items_of, put_back};
use glob_select::Pattern;
use indexmap::IndexMap;
use pac_base::Name;
use patch_edits::{Edit, walk};
use patch_sem::PatchFault;
use std::alloc::Global;
use svd_model::{Device, Field, Item, Peripheral, Sibling};

// The array that is made of the children of one parent.
#[derive(Clone, Copy)]
struct Arraying<'a> {
    line: u32,
    pattern: &'a Pattern,
    name: &'a Name,
}

// Whether one of these children has the name.
fn has_name<M>(name: &Name, children: &[(Sibling, M)]) -> bool
    ensures { result ≡ list_any (λ entry. bytes_eq name.now entry.0.name) children.now }
{
    for entry in children {
        if *name == entry.0.name {
            return true;
        }
    }
    false
}

fn exists(alloc: Global, line: u32, name: &Name) -> PatchFault
    ensures { (result ≡ Memory) ⊎ (result ≡ AddExists line name.now) }
{
    match name.copy(alloc) {
        Ok(name) => PatchFault::AddExists { line, name },
        Err(_) => PatchFault::Memory,
    }
}

// The children with the array in the place of those that become its members.
fn arrange<M: Member>(
    alloc: Global,
    line: u32,
    pattern: &Pattern,
    name: &Name,
    total: &mut u64,
    children: Vec<(Sibling, M)>,
) -> Result<Vec<(Sibling, M)>, PatchFault>
    ensures arranged { Arranges M.seen (arraying_in capped line pattern.now name.now (map (under_key M.seen) children.items)) result }
    ensures distinct { IfOk result (λ made. AreDistinct sibling_eq (map entry_key children.items) → AreDistinct sibling_eq (map entry_key made.items)) }
    ensures counted { MakesCounted M.seen result total.old children.items total.new }
{
    let Ok(parted) = part(alloc, pattern, children) else {
        return Err(PatchFault::Memory);
    };
    if parted.members.is_empty() {
        return Err(PatchFault::NoMatch { line });
    }
    if has_name(name, parted.others.as_slice()) {
        return Err(exists(alloc, line, name));
    }
    arrange_parted(alloc, line, name, total, parted)
}

fn arrange_map<M: Member>(
    alloc: Global,
    line: u32,
    pattern: &Pattern,
    name: &Name,
    total: &mut u64,
    entries: &mut IndexMap<Sibling, M>,
) -> Result<(), PatchFault>
    ensures edited { Arrays M.seen line pattern.now name.now entries.old.entries entries.new.entries result }
    ensures counted { Recounts (listed M.seen) result total.old entries.old.entries total.new entries.new.entries }
{
    let Ok(children) = entries_of(alloc, entries) else {
        return Err(PatchFault::Memory);
    };
    let made = arrange(alloc, line, pattern, name, total, children)?;
    let Ok(_) = put_back(alloc, entries, made) else {
        return Err(PatchFault::Memory);
    };
    Ok(())
}

fn arrange_items(
    alloc: Global,
    line: u32,
    pattern: &Pattern,
    name: &Name,
    total: &mut u64,
    items: &mut Vec<Item>,
) -> Result<(), PatchFault>
    ensures edited { Edited (arraying_in capped line pattern.now name.now (map item_under items.old.items)) (siblings (map item_under items.new.items)) result }
    ensures counted { Recounts below_block result total.old items.old.items total.new items.new.items }
{
    let Ok(children) = children_of(alloc, items) else {
        return Err(PatchFault::Memory);
    };
    let made = arrange(alloc, line, pattern, name, total, children)?;
    let Ok(new) = items_of(alloc, made) else {
        return Err(PatchFault::Memory);
    };
    *items = new;
    Ok(())
}

impl<'a> Edit for Arraying<'a> {
    ghost edit = { λ arraying. arrayed_below capped arraying.line arraying.pattern.now arraying.name.now };

    fn peripherals(
        &self,
        alloc: Global,
        total: &mut u64,
        peripherals: &mut IndexMap<Sibling, Peripheral>,
    ) -> Result<(), PatchFault> {
        arrange_map(
            alloc,
            self.line,
            self.pattern,
            self.name,
            total,
            peripherals,
        )
    }

    fn items(
        &self,
        alloc: Global,
        total: &mut u64,
        items: &mut Vec<Item>,
    ) -> Result<(), PatchFault> {
        arrange_items(alloc, self.line, self.pattern, self.name, total, items)
    }

    fn fields(
        &self,
        alloc: Global,
        total: &mut u64,
        fields: &mut IndexMap<Sibling, Field>,
    ) -> Result<(), PatchFault> {
        arrange_map(alloc, self.line, self.pattern, self.name, total, fields)
    }

    #[tactic(auto, unfolding(crate::specs::Arranging::arrayed_below))]
    fn line(&self) -> u32 {
        self.line
    }
}

/// Makes one array of the children that the pattern matches and that state no `dim`, of each element that the parents lead to
/// (svdtools' `_array`): with the keys and children of the one at the least offset, in the place of the one that stands first.
/// `NoMatch` where there is none, or the parent is a field; `AddExists` where a child that isn't a member has the name;
/// `ArrayUneven` with the first neighbours by offset whose step is 0 or isn't the first; `ArrayUnlike` with the first member and
/// the first behind it that isn't like it. `total` is how many elements the device has, before and after. What is left after a
/// refusal isn't said.
pub fn array(
    alloc: Global,
    line: u32,
    parents: &[Pattern],
    pattern: &Pattern,
    name: &Name,
    total: &mut u64,
    device: &mut Device,
) -> Result<(), PatchFault>
    requires described { IsDescribed device.old }
    requires counted { IsCounted device.old total.old }
    ensures applied { IsApplied (order_at line parents.now (arrays pattern.now name.now)) (device_rows device.old) (device_rows device.new) result }
    ensures described { IfOk result (λ done. IsDescribed device.new) }
    ensures counted { OnOk result (IsCounted device.new total.new) }
{
    let arraying = Arraying {
        line,
        pattern,
        name,
    };
    walk(alloc, &arraying, parents, total, &mut device.peripherals)
}
