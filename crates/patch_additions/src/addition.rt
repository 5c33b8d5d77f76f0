ghost use Rattle.std.specs.Prelude.{◌≡◌, ◌⊎◌, ◌||◌, [], ◌∷◌, IfOk, MatchResult, OnOk, is_some, map};
ghost use Rattle.patch_additions.specs.declared.addition.Unmade.TheVariants as unmade;
ghost use Rattle.patch_edits.specs.Commands.{IsApplied, IsCounted, order_at};
ghost use Rattle.patch_additions.specs.Additions.{Builds, BuildsFields, BuildsRegisters, IsLacking, IsRefusal, built_child, key_text};
ghost use Rattle.patch_model.specs.Acts.{addition_under, added_of, adds_one};
ghost use Rattle.patch_ready.specs.Ready.{AreApart};
ghost use Rattle.svd_model.specs.Facts.{IsDescribed};
ghost use Rattle.svd_model.specs.Keys.{at_offset, base_address};
ghost use Rattle.svd_model.specs.Steps.{peripheral, register, field};
ghost use Rattle.svd_model.specs.Trees.{device_rows, field_tree, field_under, item_under, peripheral_tree, register_tree};
ghost use Rattle.svd_rows.specs.Forest.{leaf, siblings};

use glob_select::Pattern;
use indexmap::IndexMap;
use pac_base::{Name, NoMemory, Text, TextFault};
use patch_growth::{Maker, walk};
use patch_model::Addition;
use patch_sem::PatchFault;
use patch_settings::{set_field, set_peripheral, set_register, sets_base, sets_offset};
use std::alloc::{AllocFailed, Global};
use svd_model::{Child, Device, Dim, Field, Item, Peripheral, Props, Register, Sibling};
use svd_values::Place;

// The key that an element must have.
#[derive(Clone, Copy)]
enum Needed {
    BaseAddress,
    AddressOffset,
    BitOffset,
}

// Why an element isn't made.
#[derive(Drop)]
enum Unmade {
    Lacks(Needed),
    Memory,
}

impl From<NoMemory> for Unmade {
    ghost from_gives = { λ _ fault. fault ≡ unmade.Memory };

    fn from(_error: NoMemory) -> Unmade {
        Unmade::Memory
    }
}

impl<T: Drop> From<AllocFailed<T>> for Unmade {
    ghost from_gives = { λ _ fault. fault ≡ unmade.Memory };

    fn from(_error: AllocFailed<T>) -> Unmade {
        Unmade::Memory
    }
}

fn key_of(alloc: Global, addition: &Addition) -> Result<Sibling, NoMemory>
    ensures { IfOk result (λ key. (key.name ≡ (addition_under addition.now).name) × (key.number ≡ 0)) }
{
    Ok(Sibling {
        name: addition.name.copy(alloc)?,
        number: 0,
    })
}

// A field without keys.
#[tactic(auto, unfolding(svd_model::specs::Trees::field_places, svd_rows::specs::Ranks::stated))]
fn bare_field(alloc: Global) -> Field
    ensures keys { (field_tree result).keys ≡ [] }
    ensures below { (field_tree result).below ≡ leaf }
{
    Field {
        derived: None,
        dim: Dim {
            count: None,
            step: None,
            index: None,
        },
        place: Place {
            offset: None,
            width: None,
        },
        access: None,
        kind: None,
        action: None,
        values: Vec::new(alloc),
    }
}

// Whether a field has an offset, or a source that may have one.
fn is_placed(field: &Field) -> bool
    ensures { result ≡ (is_some field.now.derived || is_some field.now.place.offset) }
{
    field.derived.is_some() || field.place.offset.is_some()
}

// A field with the keys of an addition.
fn made_field(alloc: Global, addition: &Addition) -> Result<Field, Unmade>
    ensures { Builds field_tree field (addition_under addition.now) result }
{
    let mut made = bare_field(alloc);
    set_field(alloc, addition.keys.as_slice(), &mut made)?;
    if !is_placed(&made) {
        return Err(Unmade::Lacks(Needed::BitOffset));
    }
    Ok(made)
}

fn made_fields(alloc: Global, additions: &[Addition]) -> Result<IndexMap<Sibling, Field>, Unmade>
    ensures { BuildsFields (added_of (map addition_under additions.now)) result }
{
    let mut made = IndexMap::new(alloc);
    for addition in additions {
        let key = key_of(alloc, addition)?;
        let field = made_field(alloc, addition)?;
        made.insert(key, field)?;
    }
    Ok(made)
}

// A register at 0, without other keys.
#[tactic(auto, unfolding(svd_model::specs::Trees::register_places, svd_rows::specs::Ranks::stated))]
fn bare_register(fields: IndexMap<Sibling, Field>) -> Register
    ensures keys { (register_tree result).keys ≡ at_offset 0 ∷ [] }
    ensures below { (register_tree result).below ≡ siblings (map field_under fields.entries) }
{
    Register {
        derived: None,
        dim: Dim {
            count: None,
            step: None,
            index: None,
        },
        offset: 0,
        alternate: None,
        group: None,
        props: Props {
            size: None,
            access: None,
            reset_value: None,
            reset_mask: None,
        },
        kind: None,
        action: None,
        fields,
    }
}

// A register with the keys of an addition, and the fields within it.
fn made_register(alloc: Global, addition: &Addition) -> Result<Register, Unmade>
    ensures { Builds register_tree register (addition_under addition.now) result }
{
    let keys = addition.keys.as_slice();
    if !sets_offset(alloc, keys)? {
        return Err(Unmade::Lacks(Needed::AddressOffset));
    }
    let fields = made_fields(alloc, addition.fields.items.as_slice())?;
    let mut made = bare_register(fields);
    set_register(alloc, keys, &mut made)?;
    Ok(made)
}

fn made_registers(alloc: Global, additions: &[Addition]) -> Result<Vec<Item>, Unmade>
    ensures { BuildsRegisters (added_of (map addition_under additions.now)) result }
{
    let mut made = Vec::new(alloc);
    for addition in additions {
        let key = key_of(alloc, addition)?;
        let child = Child::Register(made_register(alloc, addition)?);
        made.push(Item { key, child })?;
    }
    Ok(made)
}

// A peripheral at 0, without other keys.
#[tactic(auto, unfolding(svd_model::specs::Trees::peripheral_places, svd_rows::specs::Ranks::stated))]
fn bare_peripheral(children: Vec<Item>) -> Peripheral
    ensures keys { (peripheral_tree result).keys ≡ base_address 0 ∷ [] }
    ensures below { (peripheral_tree result).below ≡ siblings (map item_under children.items) }
{
    Peripheral {
        derived: None,
        dim: Dim {
            count: None,
            step: None,
            index: None,
        },
        base: 0,
        props: Props {
            size: None,
            access: None,
            reset_value: None,
            reset_mask: None,
        },
        children,
    }
}

// A peripheral with the keys of an addition, and the registers within it.
fn made_peripheral(alloc: Global, addition: &Addition) -> Result<Peripheral, Unmade>
    ensures { Builds peripheral_tree peripheral (addition_under addition.now) result }
{
    let keys = addition.keys.as_slice();
    if !sets_base(alloc, keys)? {
        return Err(Unmade::Lacks(Needed::BaseAddress));
    }
    let registers = made_registers(alloc, addition.registers.items.as_slice())?;
    let mut made = bare_peripheral(registers);
    set_peripheral(alloc, keys, &mut made)?;
    Ok(made)
}

// What is added.
#[derive(Clone, Copy)]
struct Adding<'a> {
    line: u32,
    addition: &'a Addition,
}

// The fault that a key is missing.
fn lacking(alloc: Global, line: u32, key: Needed) -> PatchFault
    ensures { IsLacking line (key_text key) result }
{
    let text = match key {
        Needed::BaseAddress => "baseAddress",
        Needed::AddressOffset => "addressOffset",
        Needed::BitOffset => "bitOffset",
    };
    match Text::new(alloc, text.as_bytes()) {
        Ok(key) => PatchFault::Incomplete { line, key },
        Err(TextFault::Memory) => PatchFault::Memory,
        Err(TextFault::NotUtf8) => unreachable!(),
    }
}

// The fault of what isn't made.
fn refusal(alloc: Global, line: u32, why: Unmade) -> PatchFault
    ensures { IsRefusal line why result }
{
    match why {
        Unmade::Lacks(key) => lacking(alloc, line, key),
        Unmade::Memory => PatchFault::Memory,
    }
}

impl<'a> Maker for Adding<'a> {
    ghost growth = { λ adding. built_child adding.line (addition_under adding.addition.now) };

    fn line(&self) -> u32 {
        self.line
    }

    fn name(&self) -> &Name {
        &self.addition.name
    }

    fn peripheral(
        &self,
        alloc: Global,
        _peripherals: &IndexMap<Sibling, Peripheral>,
    ) -> Result<Peripheral, PatchFault> {
        match made_peripheral(alloc, self.addition) {
            Ok(made) => Ok(made),
            Err(why) => Err(refusal(alloc, self.line, why)),
        }
    }

    fn child(&self, alloc: Global, _items: &[Item]) -> Result<Child, PatchFault> {
        match made_register(alloc, self.addition) {
            Ok(made) => Ok(Child::Register(made)),
            Err(why) => Err(refusal(alloc, self.line, why)),
        }
    }

    fn field(
        &self,
        alloc: Global,
        _fields: &IndexMap<Sibling, Field>,
    ) -> Result<Field, PatchFault> {
        match made_field(alloc, self.addition) {
            Ok(made) => Ok(made),
            Err(why) => Err(refusal(alloc, self.line, why)),
        }
    }
}

/// Makes an element in each element that the parents lead to, behind all children, by the parent's kind: a peripheral in the device,
/// a register in a peripheral or cluster, a field in a register; with the registers and fields within it (svdtools' `_add`). The
/// first fault of the first parent that has one: `NoMatch` in a field, `AddExists` where a child has the name, `Incomplete` with the
/// first key that is missing (`baseAddress`, `addressOffset`, or `bitOffset` for the place of a field without `derivedFrom`),
/// `TooMany` where more than 1,048,576 elements would be left. `total` is how many elements the device has, before and after. The
/// condition is that elements which are added side by side have names of their own. What is left after a refusal isn't said.
pub fn add(
    alloc: Global,
    line: u32,
    parents: &[Pattern],
    addition: &Addition,
    total: &mut u64,
    device: &mut Device,
) -> Result<(), PatchFault>
    requires described { IsDescribed device.old }
    requires counted { IsCounted device.old total.old }
    requires registers { AreApart (addition_under addition.now).registers }
    requires fields { AreApart (addition_under addition.now).fields }
    ensures applied { IsApplied (order_at line parents.now (adds_one (addition_under addition.now))) (device_rows device.old) (device_rows device.new) result }
    ensures described { IfOk result (λ done. IsDescribed device.new) }
    ensures counted { OnOk result (IsCounted device.new total.new) }
{
    let adding = Adding { line, addition };
    walk(alloc, &adding, parents, total, &mut device.peripherals)
}
