//! The elements of a device in document order.
ghost use Rattle.std.specs.Prelude.{◌≡◌, ◌∷◌, ◌++◌, [], ℕ, None, Some, IfOk, OnOk, map, option_map, unwrap_or};
ghost use Rattle.derive_sources.specs.Entries.{plain, kind_of, Lists, ListsAll, register_under, cluster_under, set_under};
ghost use Rattle.derive_sources.specs.Numbers.{items_of};
ghost use Rattle.svd_model.specs.Steps.{set, value};
ghost use Rattle.svd_model.specs.Trees.{value_tree, set_tree, numbered, field_under, item_under, peripheral_under, device_tree};
ghost use Rattle.svd_rows.specs.Forest.{siblings};

use crate::entry::{Entry, Kind};
use indexmap::IndexMap;
use pac_base::{Name, NoMemory, Path};
use std::alloc::Global;
use svd_model::{
    Child, Cluster, Device, Field, Item, Peripheral, Register, Sibling, Values, Variant,
};

/// The names of a source, lent.
fn lent(path: &Option<Path>) -> Option<&Path>
    ensures { option_map (λ names. names.now) result ≡ path.now }
{
    match path {
        Some(path) => Some(path),
        None => None,
    }
}

/// The bytes of a name, none where there is no name.
fn bytes_of(name: &Option<Name>) -> &[u8]
    ensures { result.now ≡ unwrap_or name.now [] }
{
    match name {
        Some(name) => name.bytes(),
        None => b"",
    }
}

/// Lists an element, whose children come next.
fn push<'a>(
    entries: &mut Vec<Entry<'a>>,
    parent: usize,
    kind: Kind,
    name: &'a [u8],
    names: Option<&'a Path>,
) -> Result<(), NoMemory>
    ensures { OnOk result (map plain entries.new.items ≡ map plain entries.old.items ++ record { parent = Some parent; kind = Some (kind_of kind); name = name.entry.now; names = option_map (λ path. path.now) names.entry } ∷ []) }
{
    entries.push(Entry {
        parent: Some(parent),
        kind: Some(kind),
        name,
        names,
    })?;
    Ok(())
}

/// Lists the device.
fn push_device(entries: &mut Vec<Entry<'_>>) -> Result<(), NoMemory>
    ensures { OnOk result (map plain entries.new.items ≡ map plain entries.old.items ++ record { parent = None; kind = None; name = []; names = None } ∷ []) }
{
    entries.push(Entry {
        parent: None,
        kind: None,
        name: b"",
        names: None,
    })?;
    Ok(())
}

fn add_values<'a>(
    parent: usize,
    values: &'a [Variant],
    entries: &mut Vec<Entry<'a>>,
) -> Result<(), NoMemory>
    ensures { OnOk result (ListsAll entries.old.items entries.new.items parent (numbered value 0 (map value_tree values.now))) }
{
    for variant in values {
        push(
            entries,
            parent,
            Kind::Value,
            variant.name.as_str().as_bytes(),
            None,
        )?;
    }
    Ok(())
}

fn add_set<'a>(
    parent: usize,
    values: &'a Values,
    entries: &mut Vec<Entry<'a>>,
) -> Result<(), NoMemory>
    ensures { OnOk result ((place : ℕ) → Lists entries.old.items entries.new.items parent (set_under place values.now)) }
{
    let number = entries.len();
    push(
        entries,
        parent,
        Kind::Set,
        bytes_of(&values.name),
        lent(&values.derived),
    )?;
    add_values(number, values.items.as_slice(), entries)
}

fn add_sets<'a>(
    parent: usize,
    sets: &'a [Values],
    entries: &mut Vec<Entry<'a>>,
) -> Result<(), NoMemory>
    ensures { OnOk result (ListsAll entries.old.items entries.new.items parent (numbered set 0 (map set_tree sets.now))) }
{
    for values in sets {
        add_set(parent, values, entries)?;
    }
    Ok(())
}

fn add_field<'a>(
    parent: usize,
    key: &'a Sibling,
    field: &'a Field,
    entries: &mut Vec<Entry<'a>>,
) -> Result<(), NoMemory>
    ensures { OnOk result (Lists entries.old.items entries.new.items parent (field_under (key.now, field.now))) }
{
    let number = entries.len();
    push(
        entries,
        parent,
        Kind::Field,
        key.name.bytes(),
        lent(&field.derived),
    )?;
    add_sets(number, field.values.as_slice(), entries)
}

fn add_fields<'a>(
    parent: usize,
    fields: &'a IndexMap<Sibling, Field>,
    entries: &mut Vec<Entry<'a>>,
) -> Result<(), NoMemory>
    ensures { OnOk result (ListsAll entries.old.items entries.new.items parent (siblings (map field_under fields.now.entries))) }
{
    for (key, field) in fields {
        add_field(parent, key, field, entries)?;
    }
    Ok(())
}

fn add_register<'a>(
    parent: usize,
    key: &'a Sibling,
    register: &'a Register,
    entries: &mut Vec<Entry<'a>>,
) -> Result<(), NoMemory>
    ensures { OnOk result (Lists entries.old.items entries.new.items parent (register_under key.now register.now)) }
{
    let number = entries.len();
    push(
        entries,
        parent,
        Kind::Register,
        key.name.bytes(),
        lent(&register.derived),
    )?;
    add_fields(number, &register.fields, entries)
}

#[cycle(list)]
fn add_cluster<'a>(
    parent: usize,
    key: &'a Sibling,
    cluster: &'a Cluster,
    entries: &mut Vec<Entry<'a>>,
) -> Result<(), NoMemory>
    ensures { OnOk result (Lists entries.old.items entries.new.items parent (cluster_under key.now cluster.now)) }
{
    let number = entries.len();
    push(
        entries,
        parent,
        Kind::Cluster,
        key.name.bytes(),
        lent(&cluster.derived),
    )?;
    add_items(number, cluster.children.as_slice(), entries)
}

#[cycle(list)]
fn add_item<'a>(parent: usize, item: &'a Item, entries: &mut Vec<Entry<'a>>) -> Result<(), NoMemory>
    ensures { OnOk result (Lists entries.old.items entries.new.items parent (item_under item.now)) }
{
    match &item.child {
        Child::Cluster(cluster) => add_cluster(parent, &item.key, cluster, entries),
        Child::Register(register) => add_register(parent, &item.key, register, entries),
    }
}

#[cycle(list)]
fn add_items<'a>(
    parent: usize,
    items: &'a [Item],
    entries: &mut Vec<Entry<'a>>,
) -> Result<(), NoMemory>
    ensures { OnOk result (ListsAll entries.old.items entries.new.items parent (siblings (map item_under items.now))) }
{
    for item in items {
        add_item(parent, item, entries)?;
    }
    Ok(())
}

fn add_peripheral<'a>(
    parent: usize,
    key: &'a Sibling,
    peripheral: &'a Peripheral,
    entries: &mut Vec<Entry<'a>>,
) -> Result<(), NoMemory>
    ensures { OnOk result (Lists entries.old.items entries.new.items parent (peripheral_under (key.now, peripheral.now))) }
{
    let number = entries.len();
    push(
        entries,
        parent,
        Kind::Peripheral,
        key.name.bytes(),
        lent(&peripheral.derived),
    )?;
    add_items(number, peripheral.children.as_slice(), entries)
}

fn add_peripherals<'a>(
    parent: usize,
    peripherals: &'a IndexMap<Sibling, Peripheral>,
    entries: &mut Vec<Entry<'a>>,
) -> Result<(), NoMemory>
    ensures { OnOk result (ListsAll entries.old.items entries.new.items parent (siblings (map peripheral_under peripherals.now.entries))) }
{
    for (key, peripheral) in peripherals {
        add_peripheral(parent, key, peripheral, entries)?;
    }
    Ok(())
}

/// The elements of a device in document order, the device first.
pub fn entries_of(alloc: Global, device: &Device) -> Result<Vec<Entry<'_>>, NoMemory>
    ensures { IfOk result (λ entries. map plain entries.items ≡ items_of (device_tree device.now)) }
{
    let mut entries = Vec::new(alloc);
    push_device(&mut entries)?;
    add_peripherals(0, &device.peripherals, &mut entries)?;
    Ok(entries)
}
