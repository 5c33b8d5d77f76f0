ghost use Rattle.std.specs.Prelude.{◌≡◌, ◌<◌, ◌^◌, ◌∷◌, [], true, map, option_map, IfOk, IfSome};
ghost use Rattle.std.specs.List.{list_all, slice_get};
ghost use Rattle.crate_form.specs.Crates.{emitted, takes_indexes};
ghost use Rattle.crate_form.specs.Elements.{AllStand, IsPeripheral, block_at, slot_at};
ghost use Rattle.crate_form.specs.Parts.{IsBlock};
ghost use Rattle.frag_tree.specs.declared.krate.Version.TheVariants.{Two};
ghost use Rattle.frag_tree.specs.Trees.{block_tree, crate_tree};
ghost use Rattle.frag_tree.specs.Validity.{valid_block, valid_crate, valid_slot};
ghost use Rattle.svd_model.specs.Properties.{holding};
ghost use Rattle.svd_model.specs.Trees.{peripheral_under};
ghost use Rattle.svd_rows.specs.Forest.{siblings};

use crate::arrays::any_has_arrays;
use crate::name::{accessor_of, slot_of};
use crate::part::{block, parts_of};
use block_form::block_form;
use frag_tree::{Block, Crate, Slot, Version};
use pac_base::{NoMemory, Seq};
use std::alloc::Global;
use svd_model::{Checked, Item, Peripheral, Props, Sibling};

/// The crate that is emitted for a description: a slot and a block module for each peripheral, as they are
/// declared.
pub fn crate_form(alloc: Global, state: &Checked) -> Result<Crate, NoMemory>
    ensures form { IfOk result (λ krate. crate_tree krate ≡ emitted state.now) }
    ensures valid { IfOk result (λ krate. valid_crate (crate_tree krate) ≡ true) }
{
    let _device = state.device();
    Ok(Crate {
        version: crate_version(state),
        slots: crate_slots(alloc, state)?,
        blocks: blocks(alloc, state)?,
        places: Seq::new(alloc),
    })
}

/// Its version: the second where a register has an array of fields, whose calls take an index.
pub fn crate_version(state: &Checked) -> Version
    ensures { result ≡ (emitted state.now).version }
{
    let device = state.device();
    for (key, peripheral) in &device.peripherals {
        if peripheral_has_arrays(key, peripheral, &device.props) {
            return Version::Two;
        }
    }
    Version::One
}

/// Whether a field in a peripheral is an array.
fn peripheral_has_arrays(key: &Sibling, peripheral: &Peripheral, outer: &Props) -> bool
    requires { IsPeripheral outer.now (peripheral_under (key.now, peripheral.now)) }
    ensures { result ≡ takes_indexes outer.now (siblings (peripheral_under (key.now, peripheral.now) ∷ [])) }
{
    let _ = key;
    let _ = outer;
    any_has_arrays(peripheral.children.as_slice())
}

/// Its slots.
pub fn crate_slots(alloc: Global, state: &Checked) -> Result<Seq<Slot>, NoMemory>
    ensures form { IfOk result (λ slots. slots ≡ (emitted state.now).slots) }
    ensures valid { IfOk result (λ slots. list_all valid_slot slots ≡ true) }
{
    let device = state.device();
    let mut slots = Seq::new(alloc);
    for (key, peripheral) in &device.peripherals {
        slots.push(slot(alloc, key, peripheral, &device.props)?)?;
    }
    Ok(slots)
}

/// Its block module of this number, counted from 0; none where it has no more.
pub fn crate_block(alloc: Global, state: &Checked, number: usize) -> Result<Option<Block>, NoMemory>
    ensures form { IfOk result (λ block. option_map block_tree block ≡ slice_get (emitted state.now).blocks number) }
    ensures valid { IfOk result (λ block. IfSome block (λ block. valid_block (emitted state.now).version (block_tree block) ≡ true)) }
{
    let device = state.device();
    match device.peripherals.get_index(number) {
        Some((key, peripheral)) => {
            let block = peripheral_block(alloc, key, peripheral, &device.props)?;
            Ok(Some(block))
        }
        None => Ok(None),
    }
}

/// Its block modules.
fn blocks(alloc: Global, state: &Checked) -> Result<Vec<Block>, NoMemory>
    ensures form { IfOk result (λ blocks. map block_tree blocks.items ≡ (emitted state.now).blocks) }
    ensures valid { IfOk result (λ blocks. list_all (valid_block Two) (map block_tree blocks.items) ≡ true) }
{
    let device = state.device();
    let mut blocks = Vec::new(alloc);
    for (key, peripheral) in &device.peripherals {
        blocks.push(peripheral_block(alloc, key, peripheral, &device.props)?)?;
    }
    Ok(blocks)
}

/// The slot of a peripheral.
fn slot(
    alloc: Global,
    key: &Sibling,
    peripheral: &Peripheral,
    outer: &Props,
) -> Result<Slot, NoMemory>
    requires { IsPeripheral outer.now (peripheral_under (key.now, peripheral.now)) }
    ensures is { IfOk result (λ slot. slot ≡ slot_at (peripheral_under (key.now, peripheral.now))) }
    ensures valid { IfOk result (λ slot. valid_slot slot ≡ true) }
{
    let _ = outer;
    Ok(Slot {
        name: slot_of(alloc, &key.name)?,
        block: accessor_of(alloc, &key.name)?,
        address: address(peripheral.base),
    })
}

/// The address of a peripheral's first byte.
fn address(base: u128) -> u64
    requires { base < 2 ^ 64 }
    ensures { result ≡ base }
{
    base as u64
}

/// The block module of a peripheral of a device in which properties `outer` hold.
fn peripheral_block(
    alloc: Global,
    key: &Sibling,
    peripheral: &Peripheral,
    outer: &Props,
) -> Result<Block, NoMemory>
    requires { IsPeripheral outer.now (peripheral_under (key.now, peripheral.now)) }
    ensures { IfOk result (IsBlock (block_at outer.now (peripheral_under (key.now, peripheral.now)))) }
{
    let children = peripheral.children.as_slice();
    let inner = props_inside(key, peripheral, children, outer);
    let inside = parts_of(alloc, children, &inner)?;
    let form = block_form(alloc, inside.children.as_slice())?;
    block(alloc, key, form, inside.units)
}

/// The properties that hold in a peripheral, in which its children stand.
fn props_inside(key: &Sibling, peripheral: &Peripheral, children: &[Item], outer: &Props) -> Props
    requires stands { IsPeripheral outer.now (peripheral_under (key.now, peripheral.now)) }
    requires children { children.now ≡ peripheral.now.children.items }
    ensures props { result ≡ holding (peripheral.now.props ∷ outer.now ∷ []) }
    ensures stand { AllStand result children.now }
{
    let _ = key;
    let _ = children;
    peripheral.props.within(outer)
}
