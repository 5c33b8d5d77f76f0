ghost use Rattle.std.specs.Prelude.{◌≡◌, [], IfOk, map};
ghost use Rattle.svd_model.specs.Trees.{item_under, cluster_tree, child_tree, field_under, register_tree, peripheral_under};
ghost use Rattle.svd_rows.specs.Forest.{siblings};
ghost use Rattle.svd_model.specs.Steps.{cluster, register};
ghost use Rattle.dim_expand.specs.Walks.{named, first_in, first_at, first_below};

use crate::cause::dim_cause;
use crate::fault::Cause;
use indexmap::IndexMap;
use pac_base::{Name, NoMemory, Path, Seq, Step};
use std::alloc::Global;
use svd_model::{Child, Cluster, Field, Item, Peripheral, Register, Sibling};

/// An element whose dimension is at fault. The steps of its path stand from the innermost to the outermost.
#[derive(Drop)]
pub struct Found {
    /// The path down to the element.
    pub inner: Path,
    /// What is wrong.
    pub cause: Cause,
}

/// What was found, seen from the parent of the element of that name.
fn round(alloc: Global, found: Option<Found>, name: &Name) -> Result<Option<Found>, NoMemory>
    ensures { IfOk result (λ made. made ≡ named name.now found) }
{
    match found {
        Some(found) => {
            let mut inner = found.inner;
            inner.push(Step {
                name: name.copy(alloc)?,
                index: None,
            })?;
            Ok(Some(Found {
                inner,
                cause: found.cause,
            }))
        }
        None => Ok(None),
    }
}

/// An element that is itself at fault, seen from itself.
fn itself(alloc: Global, cause: Cause) -> Found
    ensures inner { result.inner ≡ [] }
    ensures cause { result.cause ≡ cause }
{
    Found {
        inner: Seq::new(alloc),
        cause,
    }
}

fn first_in_fields(
    alloc: Global,
    fields: &IndexMap<Sibling, Field>,
) -> Result<Option<Found>, NoMemory>
    ensures { IfOk result (λ found. found ≡ first_in (siblings (map field_under fields.now.entries))) }
{
    for (key, field) in fields {
        if let Some(cause) = dim_cause(&key.name, &field.dim) {
            return round(alloc, Some(itself(alloc, cause)), &key.name);
        }
    }
    Ok(None)
}

#[cycle(walk)]
fn first_in_items(alloc: Global, items: &[Item]) -> Result<Option<Found>, NoMemory>
    ensures { IfOk result (λ found. found ≡ first_in (siblings (map item_under items.now))) }
{
    for item in items {
        let found = first_in_item(alloc, item)?;
        if let Some(found) = found {
            return Ok(Some(found));
        }
    }
    Ok(None)
}

#[cycle(walk)]
fn first_in_item(alloc: Global, item: &Item) -> Result<Option<Found>, NoMemory>
    ensures { IfOk result (λ found. found ≡ first_at (item_under item.now)) }
{
    let found = first_in_child(alloc, &item.key.name, &item.child)?;
    round(alloc, found, &item.key.name)
}

/// The first at a child of that name and below it, seen from the child.
#[cycle(walk)]
fn first_in_child(alloc: Global, name: &Name, child: &Child) -> Result<Option<Found>, NoMemory>
    ensures { IfOk result (λ found. found ≡ first_below (child_tree child.now).0 name.now (child_tree child.now).1) }
{
    match child {
        Child::Cluster(cluster) => first_in_cluster(alloc, name, cluster),
        Child::Register(register) => first_in_register(alloc, name, register),
    }
}

#[cycle(walk)]
fn first_in_cluster(
    alloc: Global,
    name: &Name,
    element: &Cluster,
) -> Result<Option<Found>, NoMemory>
    ensures { IfOk result (λ found. found ≡ first_below cluster name.now (cluster_tree element.now)) }
{
    if let Some(cause) = dim_cause(name, &element.dim) {
        return Ok(Some(itself(alloc, cause)));
    }
    first_in_items(alloc, element.children.as_slice())
}

fn first_in_register(
    alloc: Global,
    name: &Name,
    element: &Register,
) -> Result<Option<Found>, NoMemory>
    ensures { IfOk result (λ found. found ≡ first_below register name.now (register_tree element.now)) }
{
    if let Some(cause) = dim_cause(name, &element.dim) {
        return Ok(Some(itself(alloc, cause)));
    }
    first_in_fields(alloc, &element.fields)
}

fn first_in_peripheral(
    alloc: Global,
    key: &Sibling,
    element: &Peripheral,
) -> Result<Option<Found>, NoMemory>
    ensures { IfOk result (λ found. found ≡ first_at (peripheral_under (key.now, element.now))) }
{
    if let Some(cause) = dim_cause(&key.name, &element.dim) {
        return round(alloc, Some(itself(alloc, cause)), &key.name);
    }
    let found = first_in_items(alloc, element.children.as_slice())?;
    round(alloc, found, &key.name)
}

/// The first element of a device whose dimension is at fault, in document order.
pub fn first_in_peripherals(
    alloc: Global,
    peripherals: &IndexMap<Sibling, Peripheral>,
) -> Result<Option<Found>, NoMemory>
    ensures { IfOk result (λ found. found ≡ first_in (siblings (map peripheral_under peripherals.now.entries))) }
{
    for (key, peripheral) in peripherals {
        let found = first_in_peripheral(alloc, key, peripheral)?;
        if let Some(found) = found {
            return Ok(Some(found));
        }
    }
    Ok(None)
}
