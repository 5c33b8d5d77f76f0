ghost use Rattle.std.specs.Prelude.{◌≡◌, IfOk, map};
ghost use Rattle.svd_model.specs.Trees.{item_under, cluster_tree, child_tree, field_under, field_tree, register_tree, device_rows, peripheral_under, peripheral_tree, device_tree, set_tree};

use crate::device::{
    Child, Cluster, Device, Dim, Field, Item, Peripheral, Register, Values, Variant,
};
use crate::sibling::Sibling;
use crate::states::Described;
use indexmap::IndexMap;
use pac_base::{Name, NoMemory, Path, Seq, Step};
use std::alloc::Global;
use svd_values::{DimIndex, Words};

/// The same name once more, where there is one.
pub fn copied_name(alloc: Global, name: &Option<Name>) -> Result<Option<Name>, NoMemory>
    ensures { IfOk result (λ made. made ≡ name.now) }
{
    match name {
        Some(name) => Ok(Some(name.copy(alloc)?)),
        None => Ok(None),
    }
}

fn copied_key(alloc: Global, key: &Sibling) -> Result<Sibling, NoMemory>
    ensures { IfOk result (λ made. made ≡ key.now) }
{
    Ok(Sibling {
        name: key.name.copy(alloc)?,
        number: key.number,
    })
}

fn copied_steps(alloc: Global, path: &Path) -> Result<Path, NoMemory>
    ensures { IfOk result (λ made. made ≡ path.now) }
{
    let mut made = Seq::new(alloc);
    for step in path.as_slice() {
        made.push(Step {
            name: step.name.copy(alloc)?,
            index: step.index,
        })?;
    }
    Ok(made)
}

/// The same path once more, where there is one.
pub fn copied_path(alloc: Global, path: &Option<Path>) -> Result<Option<Path>, NoMemory>
    ensures { IfOk result (λ made. made ≡ path.now) }
{
    match path {
        Some(path) => Ok(Some(copied_steps(alloc, path)?)),
        None => Ok(None),
    }
}

fn copied_words(alloc: Global, words: &Words) -> Result<Words, NoMemory>
    ensures { IfOk result (λ made. made ≡ words.now) }
{
    let mut made = Seq::new(alloc);
    for word in words.as_slice() {
        made.push(word.copy(alloc)?)?;
    }
    Ok(made)
}

fn copied_index(alloc: Global, index: &DimIndex) -> Result<DimIndex, NoMemory>
    ensures { IfOk result (λ made. made ≡ index.now) }
{
    match index {
        DimIndex::Numbers { first, last } => Ok(DimIndex::Numbers {
            first: *first,
            last: *last,
        }),
        DimIndex::Letters { first, last } => Ok(DimIndex::Letters {
            first: *first,
            last: *last,
        }),
        DimIndex::Words(words) => Ok(DimIndex::Words(copied_words(alloc, words)?)),
    }
}

fn copied_index_if_stated(
    alloc: Global,
    index: &Option<DimIndex>,
) -> Result<Option<DimIndex>, NoMemory>
    ensures { IfOk result (λ made. made ≡ index.now) }
{
    match index {
        Some(index) => Ok(Some(copied_index(alloc, index)?)),
        None => Ok(None),
    }
}

/// The same dimension once more.
pub fn copied_dim(alloc: Global, dim: &Dim) -> Result<Dim, NoMemory>
    ensures { IfOk result (λ made. made ≡ dim.now) }
{
    Ok(Dim {
        count: dim.count,
        step: dim.step,
        index: copied_index_if_stated(alloc, &dim.index)?,
    })
}

fn copied_variants(alloc: Global, variants: &[Variant]) -> Result<Vec<Variant>, NoMemory>
    ensures { IfOk result (λ made. made.items ≡ variants.now) }
{
    let mut made = Vec::new(alloc);
    for variant in variants {
        made.push(Variant {
            name: variant.name.copy(alloc)?,
            value: variant.value,
        })?;
    }
    Ok(made)
}

#[tactic(auto, unfolding(crate::specs::Trees::set_places))]
fn copied_set(alloc: Global, set: &Values) -> Result<Values, NoMemory>
    ensures { IfOk result (λ made. set_tree made ≡ set_tree set.now) }
{
    Ok(Values {
        derived: copied_path(alloc, &set.derived)?,
        name: copied_name(alloc, &set.name)?,
        usage: set.usage,
        items: copied_variants(alloc, set.items.as_slice())?,
    })
}

/// The same sets of enumerated values once more.
pub fn copied_sets(alloc: Global, sets: &[Values]) -> Result<Vec<Values>, NoMemory>
    ensures { IfOk result (λ made. map set_tree made.items ≡ map set_tree sets.now) }
{
    let mut made = Vec::new(alloc);
    for set in sets {
        made.push(copied_set(alloc, set)?)?;
    }
    Ok(made)
}

/// The same field once more, with all below it.
#[tactic(auto, unfolding(crate::specs::Trees::field_places))]
pub fn copied_field(alloc: Global, field: &Field) -> Result<Field, NoMemory>
    ensures { IfOk result (λ made. field_tree made ≡ field_tree field.now) }
{
    Ok(Field {
        derived: copied_path(alloc, &field.derived)?,
        dim: copied_dim(alloc, &field.dim)?,
        place: field.place,
        access: field.access,
        kind: field.kind,
        action: field.action,
        values: copied_sets(alloc, field.values.as_slice())?,
    })
}

fn copied_fields(
    alloc: Global,
    fields: &IndexMap<Sibling, Field>,
) -> Result<IndexMap<Sibling, Field>, NoMemory>
    ensures { IfOk result (λ made. map field_under made.entries ≡ map field_under fields.now.entries) }
{
    let mut made = IndexMap::new(alloc);
    for (key, field) in fields {
        let key = copied_key(alloc, key)?;
        let field = copied_field(alloc, field)?;
        made.insert(key, field)?;
    }
    Ok(made)
}

#[tactic(auto, unfolding(crate::specs::Trees::register_places))]
fn copied_register(alloc: Global, register: &Register) -> Result<Register, NoMemory>
    ensures { IfOk result (λ made. register_tree made ≡ register_tree register.now) }
{
    Ok(Register {
        derived: copied_path(alloc, &register.derived)?,
        dim: copied_dim(alloc, &register.dim)?,
        offset: register.offset,
        alternate: copied_name(alloc, &register.alternate)?,
        group: copied_name(alloc, &register.group)?,
        props: register.props,
        kind: register.kind,
        action: register.action,
        fields: copied_fields(alloc, &register.fields)?,
    })
}

#[cycle(copy)]
fn copied_items(alloc: Global, items: &[Item]) -> Result<Vec<Item>, NoMemory>
    ensures { IfOk result (λ made. map item_under made.items ≡ map item_under items.now) }
{
    let mut made = Vec::new(alloc);
    for item in items {
        made.push(copied_item(alloc, item)?)?;
    }
    Ok(made)
}

#[cycle(copy)]
fn copied_item(alloc: Global, item: &Item) -> Result<Item, NoMemory>
    ensures { IfOk result (λ made. item_under made ≡ item_under item.now) }
{
    Ok(Item {
        key: copied_key(alloc, &item.key)?,
        child: copied_child(alloc, &item.child)?,
    })
}

/// The same cluster or register once more, with all below it.
#[cycle(copy)]
pub fn copied_child(alloc: Global, child: &Child) -> Result<Child, NoMemory>
    ensures { IfOk result (λ made. child_tree made ≡ child_tree child.now) }
{
    match child {
        Child::Cluster(cluster) => Ok(Child::Cluster(copied_cluster(alloc, cluster)?)),
        Child::Register(register) => Ok(Child::Register(copied_register(alloc, register)?)),
    }
}

#[cycle(copy)]
#[tactic(auto, unfolding(crate::specs::Trees::cluster_places))]
fn copied_cluster(alloc: Global, cluster: &Cluster) -> Result<Cluster, NoMemory>
    ensures { IfOk result (λ made. cluster_tree made ≡ cluster_tree cluster.now) }
{
    Ok(Cluster {
        derived: copied_path(alloc, &cluster.derived)?,
        dim: copied_dim(alloc, &cluster.dim)?,
        offset: cluster.offset,
        alternate: copied_name(alloc, &cluster.alternate)?,
        props: cluster.props,
        children: copied_items(alloc, cluster.children.as_slice())?,
    })
}

/// The same peripheral once more, with all below it.
#[tactic(auto, unfolding(crate::specs::Trees::peripheral_places))]
pub fn copied_peripheral(alloc: Global, peripheral: &Peripheral) -> Result<Peripheral, NoMemory>
    ensures { IfOk result (λ made. peripheral_tree made ≡ peripheral_tree peripheral.now) }
{
    Ok(Peripheral {
        derived: copied_path(alloc, &peripheral.derived)?,
        dim: copied_dim(alloc, &peripheral.dim)?,
        base: peripheral.base,
        props: peripheral.props,
        children: copied_items(alloc, peripheral.children.as_slice())?,
    })
}

fn copied_peripherals(
    alloc: Global,
    peripherals: &IndexMap<Sibling, Peripheral>,
) -> Result<IndexMap<Sibling, Peripheral>, NoMemory>
    ensures { IfOk result (λ made. map peripheral_under made.entries ≡ map peripheral_under peripherals.now.entries) }
{
    let mut made = IndexMap::new(alloc);
    for (key, peripheral) in peripherals {
        let key = copied_key(alloc, key)?;
        let peripheral = copied_peripheral(alloc, peripheral)?;
        made.insert(key, peripheral)?;
    }
    Ok(made)
}

#[tactic(auto, unfolding(crate::specs::Trees::device_tree, crate::specs::Trees::device_places))]
fn copied_device(alloc: Global, device: &Device) -> Result<Device, NoMemory>
    ensures { IfOk result (λ made. device_tree made ≡ device_tree device.now) }
{
    Ok(Device {
        name: device.name.copy(alloc)?,
        props: device.props,
        peripherals: copied_peripherals(alloc, &device.peripherals)?,
    })
}

impl Described {
    /// The same state once more. Where memory is wanting nothing is changed.
    pub fn copy(&self, alloc: Global) -> Result<Described, NoMemory>
        ensures { IfOk result (λ made. made ≡ self.now) }
    {
        Ok(Described::new(copied_device(alloc, self.device())?))
    }
}
