//! The written names down to an element, which is told by its number.
ghost use Rattle.std.specs.Prelude.{◌≡◌, ◌++◌, [], Some, get_or, map, option_map, reverse, IfOk, OnOk};
ghost use Rattle.derive_from.specs.Names.{AreListed, told_own};
ghost use Rattle.derive_from.specs.Refusals.{told_names, told_path, written};
ghost use Rattle.derive_sources.specs.Numbers.{Rows, path_at};
ghost use Rattle.derived_rows.specs.Dependence.{listed};
ghost use Rattle.derived_rows.specs.Sources.{source_names};
ghost use Rattle.derive_order.specs.Faults.{IsFaultAt};
ghost use Rattle.derive_order.specs.declared.fault.OrderFault.TheVariants as order_fault;
ghost use Rattle.svd_model.specs.Facts.{IsDescribed};
ghost use Rattle.svd_model.specs.Trees.{device_rows};

use derive_build::{Own, owns_of};
use derive_sources::{Entry, entries_of, entry_at};
use pac_base::{Name, NoMemory, Path, Seq, Step};
use std::alloc::Global;
use svd_model::Device;

/// The name that an element adds to a path: sets and values add none, nor does the device.
fn name_of(own: Own<'_>) -> Option<&Name>
    ensures { listed (option_map (λ name. name.now) result) ≡ told_own own.entry }
{
    match own {
        Own::Device(_) => None,
        Own::Peripheral(key, _) => Some(&key.name),
        Own::Cluster(key, _) => Some(&key.name),
        Own::Register(key, _) => Some(&key.name),
        Own::Field(key, _) => Some(&key.name),
        Own::Set(_) => None,
        Own::Value(_) => None,
    }
}

/// The name that the element of a number adds to a path.
fn name_at<'a>(owns: &[Own<'a>], number: usize) -> Option<&'a Name>
    ensures { listed (option_map (λ name. name.now) result) ≡ get_or (map told_own owns.now) number [] }
{
    match owns.get(number) {
        Some(own) => name_of(*own),
        None => None,
    }
}

/// Adds a name, where there is one.
fn push_name(alloc: Global, name: Option<&Name>, way: &mut Vec<Name>) -> Result<(), NoMemory>
    ensures { OnOk result (way.new.items ≡ way.old.items ++ listed (option_map (λ name. name.now) name.entry)) }
{
    match name {
        Some(name) => {
            way.push(name.copy(alloc)?)?;
            Ok(())
        }
        None => Ok(()),
    }
}

/// The names from an element out to its peripheral.
fn way_from(
    alloc: Global,
    entries: &[Entry<'_>],
    owns: &[Own<'_>],
    number: usize,
) -> Result<Vec<Name>, NoMemory>
    ghost all: { Rows }
    requires { AreListed all entries.now owns.now }
    ensures { IfOk result (λ way. reverse way.items ≡ told_names (path_at all number)) }
{
    let mut way = Vec::new(alloc);
    let mut here = Some(number);
    while let Some(at) = here {
        push_name(alloc, name_at(owns, at), &mut way)?;
        here = entry_at(entries, at).parent;
    }
    Ok(way)
}

/// The path of these names, the innermost of which stands first.
fn path_of(alloc: Global, way: Vec<Name>) -> Result<Path, NoMemory>
    ensures { IfOk result (λ path. path ≡ map written (reverse way.items)) }
{
    let mut path = Seq::new(alloc);
    let mut left = way;
    while let Some(name) = left.pop() {
        path.push(Step { name, index: None })?;
    }
    Ok(path)
}

fn path_among(alloc: Global, device: &Device, number: usize) -> Result<Path, NoMemory>
    ghost all: { Rows }
    requires rows { all ≡ device_rows device.now }
    requires described { IsDescribed device.now }
    ensures { IfOk result (λ path. path ≡ told_path (path_at all number)) }
{
    let entries = entries_of(alloc, device)?;
    let owns = owns_of(alloc, device)?;
    let way = way_from(alloc, entries.as_slice(), owns.as_slice(), number)?;
    path_of(alloc, way)
}

/// The path of the element of a number, as it is told.
pub(crate) fn path_in(alloc: Global, device: &Device, number: usize) -> Result<Path, NoMemory>
    requires { IsDescribed device.now }
    ensures { IfOk result (λ path. path ≡ told_path (path_at (device_rows device.now) number)) }
{
    path_among(alloc, device, number)
}

/// The same names once more.
fn copied(alloc: Global, names: &Path) -> Result<Path, NoMemory>
    ensures { IfOk result (λ made. made ≡ names.now) }
{
    let mut made = Seq::new(alloc);
    for step in names.as_slice() {
        made.push(Step {
            name: step.name.copy(alloc)?,
            index: step.index,
        })?;
    }
    Ok(made)
}

/// The names that an element gives of its source, which is missing.
pub(crate) fn names_in(alloc: Global, device: &Device, number: usize) -> Result<Path, NoMemory>
    requires described { IsDescribed device.now }
    requires missing { IsFaultAt (device_rows device.now) (order_fault.Missing number) }
    ensures { IfOk result (λ names. source_names (device_rows device.now) (path_at (device_rows device.now) number) ≡ Some names) }
{
    let entries = entries_of(alloc, device)?;
    match entry_at(entries.as_slice(), number).names {
        Some(names) => copied(alloc, names),
        None => unreachable!(),
    }
}
