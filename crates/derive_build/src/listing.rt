//! The elements of a device in document order, by reference.
ghost use Rattle.std.specs.Prelude.{◌≡◌, ◌∷◌, ◌++◌, [], ℕ, IfOk, OnOk, map};
ghost use Rattle.derive_build.specs.Nodes.{own_node, nodes_of, Lists, ListsAll, register_under, cluster_under, set_under};
ghost use Rattle.svd_model.specs.Steps.{set, value};
ghost use Rattle.svd_model.specs.Trees.{value_tree, set_tree, numbered, field_under, item_under, peripheral_under, device_tree};
ghost use Rattle.svd_rows.specs.Forest.{siblings};

use crate::own::Own;
use indexmap::IndexMap;
use pac_base::NoMemory;
use std::alloc::Global;
use svd_model::{
    Child, Cluster, Device, Field, Item, Peripheral, Register, Sibling, Values, Variant,
};

/// Lists an element, whose children come next.
fn push<'a>(owns: &mut Vec<Own<'a>>, own: Own<'a>) -> Result<(), NoMemory>
    ensures { OnOk result (map own_node owns.new.items ≡ map own_node owns.old.items ++ own_node own.entry ∷ []) }
{
    owns.push(own)?;
    Ok(())
}

fn add_values<'a>(values: &'a [Variant], owns: &mut Vec<Own<'a>>) -> Result<(), NoMemory>
    ensures { OnOk result (ListsAll owns.old.items owns.new.items (numbered value 0 (map value_tree values.now))) }
{
    for variant in values {
        push(owns, Own::Value(variant))?;
    }
    Ok(())
}

fn add_set<'a>(values: &'a Values, owns: &mut Vec<Own<'a>>) -> Result<(), NoMemory>
    ensures { OnOk result ((place : ℕ) → Lists owns.old.items owns.new.items (set_under place values.now)) }
{
    push(owns, Own::Set(values))?;
    add_values(values.items.as_slice(), owns)
}

fn add_sets<'a>(sets: &'a [Values], owns: &mut Vec<Own<'a>>) -> Result<(), NoMemory>
    ensures { OnOk result (ListsAll owns.old.items owns.new.items (numbered set 0 (map set_tree sets.now))) }
{
    for values in sets {
        add_set(values, owns)?;
    }
    Ok(())
}

fn add_field<'a>(
    key: &'a Sibling,
    field: &'a Field,
    owns: &mut Vec<Own<'a>>,
) -> Result<(), NoMemory>
    ensures { OnOk result (Lists owns.old.items owns.new.items (field_under (key.now, field.now))) }
{
    push(owns, Own::Field(key, field))?;
    add_sets(field.values.as_slice(), owns)
}

fn add_fields<'a>(
    fields: &'a IndexMap<Sibling, Field>,
    owns: &mut Vec<Own<'a>>,
) -> Result<(), NoMemory>
    ensures { OnOk result (ListsAll owns.old.items owns.new.items (siblings (map field_under fields.now.entries))) }
{
    for (key, field) in fields {
        add_field(key, field, owns)?;
    }
    Ok(())
}

fn add_register<'a>(
    key: &'a Sibling,
    register: &'a Register,
    owns: &mut Vec<Own<'a>>,
) -> Result<(), NoMemory>
    ensures { OnOk result (Lists owns.old.items owns.new.items (register_under key.now register.now)) }
{
    push(owns, Own::Register(key, register))?;
    add_fields(&register.fields, owns)
}

#[cycle(list)]
fn add_cluster<'a>(
    key: &'a Sibling,
    cluster: &'a Cluster,
    owns: &mut Vec<Own<'a>>,
) -> Result<(), NoMemory>
    ensures { OnOk result (Lists owns.old.items owns.new.items (cluster_under key.now cluster.now)) }
{
    push(owns, Own::Cluster(key, cluster))?;
    add_items(cluster.children.as_slice(), owns)
}

#[cycle(list)]
fn add_item<'a>(item: &'a Item, owns: &mut Vec<Own<'a>>) -> Result<(), NoMemory>
    ensures { OnOk result (Lists owns.old.items owns.new.items (item_under item.now)) }
{
    match &item.child {
        Child::Cluster(cluster) => add_cluster(&item.key, cluster, owns),
        Child::Register(register) => add_register(&item.key, register, owns),
    }
}

#[cycle(list)]
fn add_items<'a>(items: &'a [Item], owns: &mut Vec<Own<'a>>) -> Result<(), NoMemory>
    ensures { OnOk result (ListsAll owns.old.items owns.new.items (siblings (map item_under items.now))) }
{
    for item in items {
        add_item(item, owns)?;
    }
    Ok(())
}

fn add_peripheral<'a>(
    key: &'a Sibling,
    peripheral: &'a Peripheral,
    owns: &mut Vec<Own<'a>>,
) -> Result<(), NoMemory>
    ensures { OnOk result (Lists owns.old.items owns.new.items (peripheral_under (key.now, peripheral.now))) }
{
    push(owns, Own::Peripheral(key, peripheral))?;
    add_items(peripheral.children.as_slice(), owns)
}

fn add_peripherals<'a>(
    peripherals: &'a IndexMap<Sibling, Peripheral>,
    owns: &mut Vec<Own<'a>>,
) -> Result<(), NoMemory>
    ensures { OnOk result (ListsAll owns.old.items owns.new.items (siblings (map peripheral_under peripherals.now.entries))) }
{
    for (key, peripheral) in peripherals {
        add_peripheral(key, peripheral, owns)?;
    }
    Ok(())
}

/// The elements of a device in document order, the device first.
pub fn owns_of(alloc: Global, device: &Device) -> Result<Vec<Own<'_>>, NoMemory>
    ensures { IfOk result (λ owns. map own_node owns.items ≡ nodes_of (device_tree device.now)) }
{
    let mut owns = Vec::new(alloc);
    push(&mut owns, Own::Device(device))?;
    add_peripherals(&device.peripherals, &mut owns)?;
    Ok(owns)
}
