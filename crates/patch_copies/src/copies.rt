ghost use Rattle.std.specs.Prelude.{◌≡◌, ◌⊎◌, IfErr, IfOk, MatchResult, OnOk, Ok, Err, find, map, option_map, is_some};
ghost use Rattle.std.specs.Option.{option_copied};
ghost use Rattle.std.specs.Str.{bytes_eq};
ghost use Rattle.patch_copies.specs.Copies.{IsMissing, copies_child};
ghost use Rattle.patch_edits.specs.Commands.{IsApplied, IsCounted, order_at};
ghost use Rattle.patch_model.specs.Acts.{copies};
ghost use Rattle.patch_sem.specs.declared.fault.PatchFault.TheVariants.{Memory};
ghost use Rattle.patch_settings.specs.Setting.{with_set};
ghost use Rattle.svd_model.specs.Facts.{IsDescribed};
ghost use Rattle.svd_model.specs.Steps.{peripheral, field};
ghost use Rattle.svd_model.specs.Trees.{device_rows, child_tree, field_tree, peripheral_tree};

use glob_select::Pattern;
use indexmap::IndexMap;
use pac_base::{Name, NoMemory, Text};
use patch_growth::{Maker, walk};
use patch_sem::PatchFault;
use patch_settings::{set_child, set_field, set_peripheral};
use std::alloc::Global;
use svd_model::{
    Child, Device, Field, Item, Peripheral, Sibling, copied_child, copied_field, copied_peripheral,
};

// What is copied, and how.
#[derive(Clone, Copy)]
struct Copying<'a> {
    line: u32,
    name: &'a Name,
    from: &'a Name,
    keys: &'a [(Text, Text)],
}

// The entry of a name.
fn named<'b, V>(name: &Name, entries: &'b IndexMap<Sibling, V>) -> Option<&'b V>
    ensures { option_copied result ≡ option_map (λ entry. entry.1) (find (λ entry. bytes_eq name.now entry.0.name) entries.now.entries) }
{
    for (key, value) in entries {
        if name.bytes() == key.name.bytes() {
            return Some(value);
        }
    }
    None
}

// The item of a name.
fn named_item<'b>(name: &Name, items: &'b [Item]) -> Option<&'b Item>
    ensures { option_copied result ≡ find (λ item. bytes_eq name.now item.key.name) items.now }
{
    for item in items {
        if name.bytes() == item.key.name.bytes() {
            return Some(item);
        }
    }
    None
}

// The fault that no child has the name.
fn missing(alloc: Global, line: u32, name: &Name) -> PatchFault
    ensures { IsMissing line name.now result }
{
    match name.copy(alloc) {
        Ok(name) => PatchFault::CopyMissing { line, name },
        Err(NoMemory) => PatchFault::Memory,
    }
}

fn peripheral_with(
    alloc: Global,
    keys: &[(Text, Text)],
    from: &Peripheral,
) -> Result<Peripheral, NoMemory>
    ensures { IfOk result (λ made. (peripheral, peripheral_tree made) ≡ with_set keys.now (peripheral, peripheral_tree from.now)) }
{
    let mut made = copied_peripheral(alloc, from)?;
    set_peripheral(alloc, keys, &mut made)?;
    Ok(made)
}

fn child_with(alloc: Global, keys: &[(Text, Text)], from: &Child) -> Result<Child, NoMemory>
    ensures { IfOk result (λ made. child_tree made ≡ with_set keys.now (child_tree from.now)) }
{
    let mut made = copied_child(alloc, from)?;
    set_child(alloc, keys, &mut made)?;
    Ok(made)
}

fn field_with(alloc: Global, keys: &[(Text, Text)], from: &Field) -> Result<Field, NoMemory>
    ensures { IfOk result (λ made. (field, field_tree made) ≡ with_set keys.now (field, field_tree from.now)) }
{
    let mut made = copied_field(alloc, from)?;
    set_field(alloc, keys, &mut made)?;
    Ok(made)
}

// What was made, or that memory was wanting.
fn or_memory<T>(made: Result<T, NoMemory>) -> Result<T, PatchFault>
    ensures { MatchResult made (λ value. result ≡ Ok value) (λ fault. result ≡ Err Memory) }
{
    match made {
        Ok(value) => Ok(value),
        Err(NoMemory) => Err(PatchFault::Memory),
    }
}

impl<'a> Maker for Copying<'a> {
    ghost growth = { λ copying. copies_child copying.line copying.name.now copying.from.now copying.keys.now };

    fn line(&self) -> u32 {
        self.line
    }

    fn name(&self) -> &Name {
        self.name
    }

    fn peripheral(
        &self,
        alloc: Global,
        peripherals: &IndexMap<Sibling, Peripheral>,
    ) -> Result<Peripheral, PatchFault> {
        match named(self.from, peripherals) {
            Some(from) => or_memory(peripheral_with(alloc, self.keys, from)),
            None => Err(missing(alloc, self.line, self.from)),
        }
    }

    fn child(&self, alloc: Global, items: &[Item]) -> Result<Child, PatchFault> {
        match named_item(self.from, items) {
            Some(from) => or_memory(child_with(alloc, self.keys, &from.child)),
            None => Err(missing(alloc, self.line, self.from)),
        }
    }

    fn field(&self, alloc: Global, fields: &IndexMap<Sibling, Field>) -> Result<Field, PatchFault> {
        match named(self.from, fields) {
            Some(from) => or_memory(field_with(alloc, self.keys, from)),
            None => Err(missing(alloc, self.line, self.from)),
        }
    }
}

/// Copies the child `from` of each element that the parents lead to, whole and under a new name, behind all children, and sets
/// keys of the copy (svdtools' `_copy`). The first fault of the first parent that has one: `NoMatch` in a field, `AddExists` where
/// a child has the new name, `CopyMissing` where none has the name `from`, `TooMany` where more than 1,048,576 elements would be
/// left. `total` is how many elements the device has, before and after. What is left after a refusal isn't said.
pub fn copy(
    alloc: Global,
    line: u32,
    parents: &[Pattern],
    name: &Name,
    from: &Name,
    keys: &[(Text, Text)],
    total: &mut u64,
    device: &mut Device,
) -> Result<(), PatchFault>
    requires described { IsDescribed device.old }
    requires counted { IsCounted device.old total.old }
    ensures applied { IsApplied (order_at line parents.now (copies name.now from.now keys.now)) (device_rows device.old) (device_rows device.new) result }
    ensures described { IfOk result (λ done. IsDescribed device.new) }
    ensures counted { OnOk result (IsCounted device.new total.new) }
{
    let copying = Copying {
        line,
        name,
        from,
        keys,
    };
    walk(alloc, &copying, parents, total, &mut device.peripherals)
}
