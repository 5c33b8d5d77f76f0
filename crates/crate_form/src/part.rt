ghost use Rattle.std.specs.Prelude.{◌≡◌, ◌≢◌, ◌<◌, ◌^◌, ◌∷◌, [], true, map, IfOk};
ghost use Rattle.std.specs.List.{AllByRecursion, list_all};
ghost use Rattle.block_form.specs.Children.{IsSound};
ghost use Rattle.block_form.specs.Numbers.{IsValid};
ghost use Rattle.crate_form.specs.Children.{array_of};
ghost use Rattle.crate_form.specs.Elements.{AllStand, StandsAlone, child_from};
ghost use Rattle.crate_form.specs.Parts.{AreInside, AreParts, IsBlock, IsPart, block_with, units_of, valid_unit};
ghost use Rattle.frag_tree.specs.Trees.{in_line};
ghost use Rattle.rust_names.specs.Identifiers.{IsIdentifier};
ghost use Rattle.svd_model.specs.declared.device.Cluster.{out-Cluster};
ghost use Rattle.svd_model.specs.Properties.{holding};
ghost use Rattle.svd_model.specs.Trees.{item_under, cluster_under, register_under};
ghost use Rattle.svd_rows.specs.Forest.{siblings};
ghost use Rattle.svd_values.specs.AccessorNames.{accessor_name};

use crate::name::accessor_of;
use crate::register::register_in;
use block_form::{Array, Child, ChildKind, Form, block_form};
use frag_tree::{Block, Module};
use pac_base::{NoMemory, Seq};
use register_form::register_form;
use std::alloc::Global;
use svd_model::{Child as Element, Cluster, Dim, Item, Props, Register, Sibling};

/// What a register or cluster comes to: what the block round it is told of it, and its own module.
#[derive(Drop)]
pub(crate) struct Part {
    /// What the block round it is told.
    pub child: Child,
    /// Its module.
    pub unit: Module,
}

/// What siblings come to.
#[derive(Drop)]
pub(crate) struct Parts {
    /// What the block round them is told.
    pub children: Seq<Child>,
    /// The module of each.
    pub units: Vec<Module>,
}

/// What these registers and clusters come to, which stand in a block in which properties `outer` hold.
#[cycle(walk)]
pub(crate) fn parts_of(alloc: Global, items: &[Item], outer: &Props) -> Result<Parts, NoMemory>
    requires { AllStand outer.now items.now }
    ensures { IfOk result (AreParts outer.now (siblings (map item_under items.now))) }
{
    let mut children = Seq::new(alloc);
    let mut units = Vec::new(alloc);
    for item in items {
        let made = part_of(alloc, item, outer)?;
        children.push(made.child)?;
        units.push(made.unit)?;
    }
    Ok(Parts { children, units })
}

/// What one of them comes to.
#[cycle(walk)]
fn part_of(alloc: Global, item: &Item, outer: &Props) -> Result<Part, NoMemory>
    requires { StandsAlone outer.now (item_under item.now) }
    ensures { IfOk result (IsPart outer.now (item_under item.now)) }
{
    match &item.child {
        Element::Cluster(cluster) => {
            let children = cluster.children.as_slice();
            let inner = props_inside(&item.key, cluster, children, outer);
            let inside = parts_of(alloc, children, &inner)?;
            cluster_part(alloc, &item.key, cluster, outer, inside)
        }
        Element::Register(register) => register_part(alloc, &item.key, register, outer),
    }
}

/// The properties that hold in a cluster, in which its children stand.
fn props_inside(key: &Sibling, cluster: &Cluster, children: &[Item], outer: &Props) -> Props
    requires stands { StandsAlone outer.now (cluster_under key.now cluster.now) }
    requires children { children.now ≡ (out-Cluster cluster.now).children.items }
    ensures props { result ≡ holding ((out-Cluster cluster.now).props ∷ outer.now ∷ []) }
    ensures stand { AllStand result children.now }
{
    let _ = key;
    let _ = children;
    cluster.props.within(outer)
}

/// What a cluster comes to in which these parts stand.
fn cluster_part(
    alloc: Global,
    key: &Sibling,
    cluster: &Cluster,
    outer: &Props,
    inside: Parts,
) -> Result<Part, NoMemory>
    requires stands { StandsAlone outer.now (cluster_under key.now cluster.now) }
    requires inside { AreInside outer.now cluster.now inside }
    ensures { IfOk result (IsPart outer.now (cluster_under key.now cluster.now)) }
{
    let _ = outer;
    let form = block_form(alloc, inside.children.as_slice())?;
    let (size, align) = (form.size, form.align);
    let child = child(
        alloc,
        key,
        ChildKind::Block,
        cluster.offset,
        &cluster.dim,
        size,
        align,
    )?;
    let block = block(alloc, key, form, inside.units)?;
    Ok(Part {
        child,
        unit: Module::Block(block),
    })
}

/// What a register comes to.
fn register_part(
    alloc: Global,
    key: &Sibling,
    register: &Register,
    outer: &Props,
) -> Result<Part, NoMemory>
    requires { StandsAlone outer.now (register_under key.now register.now) }
    ensures { IfOk result (IsPart outer.now (register_under key.now register.now)) }
{
    let made = register_in(alloc, key, register, outer)?;
    let bytes = made.word.bytes();
    let (offset, size) = (register.offset, u128::from(bytes));
    let child = child(
        alloc,
        key,
        ChildKind::Register,
        offset,
        &register.dim,
        size,
        bytes,
    )?;
    Ok(Part {
        child,
        unit: Module::Register(register_form(alloc, &made)?),
    })
}

/// What a block is told of a register or cluster in it that takes so many bytes.
fn child(
    alloc: Global,
    key: &Sibling,
    kind: ChildKind,
    offset: u128,
    dim: &Dim,
    size: u128,
    align: u64,
) -> Result<Child, NoMemory>
    requires named { key.now.name ≢ [] → IsIdentifier (accessor_name key.now.name) }
    requires offset { offset < 2 ^ 64 }
    ensures { IfOk result (λ made. made ≡ child_from key.now kind offset dim.now size align) }
{
    Ok(Child {
        name: accessor_of(alloc, &key.name)?,
        kind,
        offset: offset as u64,
        size,
        align,
        array: array_of(dim.count, dim.step),
    })
}

fn array_of(count: Option<u64>, increment: Option<u64>) -> Option<Array>
    ensures { result ≡ array_of count increment }
{
    match count {
        None => None,
        Some(count) => Some(Array {
            count,
            stride: increment.unwrap_or(0),
        }),
    }
}

/// The block module of an element of this form, with these modules inside.
#[tactic(auto, unfolding(frag_tree::specs::Trees::module_tree, frag_tree::specs::Trees::block_tree))]
pub(crate) fn block(
    alloc: Global,
    key: &Sibling,
    form: Form,
    units: Vec<Module>,
) -> Result<Block, NoMemory>
    requires named { key.now.name ≢ [] → IsIdentifier (accessor_name key.now.name) }
    requires form { IsValid form }
    requires units { list_all valid_unit (units_of units.items) ≡ true }
    ensures { IfOk result (IsBlock (block_with (accessor_name key.now.name) form (in_line (units_of units.items)))) }
{
    Ok(Block {
        name: accessor_of(alloc, &key.name)?,
        fields: form.fields,
        accessors: form.accessors,
        modules: units,
    })
}
