ghost use Rattle.std.specs.Prelude.{◌≡◌, ◌++◌, ◌∷◌, [], IfOk, map};
ghost use Rattle.svd_model.specs.Trees.{item_under, child_tree, field_under, peripheral_under, device_tree};
ghost use Rattle.svd_rows.specs.Forest.{siblings};
ghost use Rattle.overlap_check.specs.Meetings.{alone, clash_named, first_clash};
ghost use Rattle.overlap_check.specs.Walks.{told_name};

use crate::meeting::meet;
use crate::walk::round;
use indexmap::IndexMap;
use pac_base::{Name, NoMemory, Path, Seq};
use std::alloc::Global;
use svd_model::{Child, Device, Field, Item, Peripheral, Sibling};

/// Two siblings with one accessor name. The steps of their paths stand from the innermost to the outermost.
#[derive(Drop)]
pub struct Clash {
    /// The one that stands first.
    pub first: Path,
    /// The other.
    pub second: Path,
}

/// The clash of two siblings, seen from their parent.
fn clash_of(alloc: Global, first: &Name, second: &Name) -> Result<Clash, NoMemory>
    ensures { IfOk result (λ made. made ≡ alone first.now second.now) }
{
    Ok(Clash {
        first: round(alloc, Seq::new(alloc), first)?,
        second: round(alloc, Seq::new(alloc), second)?,
    })
}

/// The clash that was found below the element of that name.
fn clash_round(alloc: Global, found: Option<Clash>, name: &Name) -> Result<Option<Clash>, NoMemory>
    ensures { IfOk result (λ made. made ≡ clash_named name.now found) }
{
    match found {
        Some(clash) => Ok(Some(Clash {
            first: round(alloc, clash.first, name)?,
            second: round(alloc, clash.second, name)?,
        })),
        None => Ok(None),
    }
}

fn clash_in_fields(
    alloc: Global,
    fields: &IndexMap<Sibling, Field>,
) -> Result<Option<Clash>, NoMemory>
    ensures { IfOk result (λ found. found ≡ first_clash [] (siblings (map field_under fields.now.entries))) }
{
    let mut seen = IndexMap::new(alloc);
    for (key, _field) in fields {
        let earlier = meet(alloc, &mut seen, &key.name)?;
        if let Some(first) = earlier {
            return Ok(Some(clash_of(alloc, &first, &key.name)?));
        }
    }
    Ok(None)
}

#[cycle(walk)]
fn clash_in_items(alloc: Global, items: &[Item]) -> Result<Option<Clash>, NoMemory>
    ensures { IfOk result (λ found. found ≡ first_clash [] (siblings (map item_under items.now))) }
{
    let mut seen = IndexMap::new(alloc);
    for item in items {
        let earlier = meet(alloc, &mut seen, &item.key.name)?;
        if let Some(first) = earlier {
            return Ok(Some(clash_of(alloc, &first, &item.key.name)?));
        }
        let below = clash_in_child(alloc, &item.child)?;
        let found = clash_round(alloc, below, &item.key.name)?;
        if let Some(clash) = found {
            return Ok(Some(clash));
        }
    }
    Ok(None)
}

#[cycle(walk)]
fn clash_in_child(alloc: Global, child: &Child) -> Result<Option<Clash>, NoMemory>
    ensures { IfOk result (λ found. found ≡ first_clash [] (child_tree child.now).1.below) }
{
    match child {
        Child::Cluster(cluster) => clash_in_items(alloc, cluster.children.as_slice()),
        Child::Register(register) => clash_in_fields(alloc, &register.fields),
    }
}

fn clash_in_peripherals(
    alloc: Global,
    peripherals: &IndexMap<Sibling, Peripheral>,
) -> Result<Option<Clash>, NoMemory>
    ensures { IfOk result (λ found. found ≡ first_clash [] (siblings (map peripheral_under peripherals.now.entries))) }
{
    let mut seen = IndexMap::new(alloc);
    for (key, peripheral) in peripherals {
        let earlier = meet(alloc, &mut seen, &key.name)?;
        if let Some(first) = earlier {
            return Ok(Some(clash_of(alloc, &first, &key.name)?));
        }
        let below = clash_in_items(alloc, peripheral.children.as_slice())?;
        let found = clash_round(alloc, below, &key.name)?;
        if let Some(clash) = found {
            return Ok(Some(clash));
        }
    }
    Ok(None)
}

/// The first two siblings that have one accessor name: those whose second one stands first in the document, and
/// of these the first.
#[tactic(auto, unfolding(svd_model::specs::Trees::device_tree))]
pub fn clash_in_device(alloc: Global, device: &Device) -> Result<Option<Clash>, NoMemory>
    ensures { IfOk result (λ found. found ≡ first_clash [] (device_tree device.now).below) }
{
    clash_in_peripherals(alloc, &device.peripherals)
}
