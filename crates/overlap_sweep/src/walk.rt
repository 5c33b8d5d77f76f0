ghost use Rattle.std.specs.Prelude.{◌≡◌, ◌++◌, ◌∷◌, [], ◌+◌, ◌*◌, ◌<◌, ◌^◌, ◌&&◌, map, is_some, unwrap_or, IfOk, OnOk};
ghost use Rattle.overlap_sweep.specs.Walk.{member_spots, peripheral_way, spot_of, spots_in, spots_of_peripherals};
ghost use Rattle.reg_table.specs.Walk.{AllFit, FitIn, IsAmong, index_at};
ghost use Rattle.svd_model.specs.declared.device.Cluster.{out-Cluster};
ghost use Rattle.svd_model.specs.Checking.{bytes_of, width_of};
ghost use Rattle.svd_model.specs.Properties.{holding, size_at};
ghost use Rattle.svd_model.specs.Stating.{stated_dim, value_of};
ghost use Rattle.svd_model.specs.Trees.{device_tree, item_under, peripheral_under, cluster_under, register_under};
ghost use Rattle.svd_rows.specs.Forest.{siblings};

use crate::field::shared_fields;
use crate::spot::{Spot, Way};
use pac_base::{Name, NoMemory, Seq};
use std::alloc::Global;
use svd_model::{Child, Cluster, Device, Item, Peripheral, Props, Register, Sibling};

/// What holds round registers: the way to their parent, where it starts, and the properties in it.
#[derive(Drop)]
struct Outer {
    way: Seq<Way>,
    start: u64,
    props: Props,
}

/// The members of all registers, in document order, where a member of an array, with its content, precedes the next.
#[tactic(auto, unfolding(svd_model::specs::Trees::device_tree))]
pub fn spots(alloc: Global, device: &Device) -> Result<Seq<Spot>, NoMemory>
    requires { FitIn 0 device.now.props (device_tree device.now).below }
    ensures { IfOk result (λ made. made ≡ spots_of_peripherals device.now.props (device_tree device.now).below) }
{
    let mut made = Seq::new(alloc);
    for (key, peripheral) in &device.peripherals {
        push_peripheral(alloc, key, peripheral, &device.props, &mut made)?;
    }
    Ok(made)
}

/// Adds the members of the registers in a peripheral.
fn push_peripheral(
    alloc: Global,
    key: &Sibling,
    peripheral: &Peripheral,
    props: &Props,
    made: &mut Seq<Spot>,
) -> Result<(), NoMemory>
    requires start { peripheral.now.base < 2 ^ 64 }
    requires below { AllFit peripheral.now.base (holding (peripheral.now.props ∷ props.now ∷ [])) peripheral.now.children.items }
    ensures { OnOk result (made.new ≡ made.old ++ spots_in (peripheral_way (peripheral_under (key.now, peripheral.now)).0 (peripheral_under (key.now, peripheral.now)).1.keys) peripheral.now.base (holding (peripheral.now.props ∷ props.now ∷ [])) (siblings (map item_under peripheral.now.children.items))) }
{
    let outer = Outer {
        way: way_inside(alloc, &Seq::new(alloc), key, None, false)?,
        start: peripheral.base as u64,
        props: peripheral.props.within(props),
    };
    push_items(alloc, peripheral.children.as_slice(), &outer, made)
}

/// Adds the members of the registers among children and below them.
#[cycle(walk)]
fn push_items(
    alloc: Global,
    items: &[Item],
    outer: &Outer,
    made: &mut Seq<Spot>,
) -> Result<(), NoMemory>
    requires { AllFit outer.now.start outer.now.props items.now }
    ensures { OnOk result (made.new ≡ made.old ++ spots_in outer.now.way outer.now.start outer.now.props (siblings (map item_under items.now))) }
{
    for item in items {
        push_item(alloc, item, outer, made)?;
    }
    Ok(())
}

/// Adds those of each member of a child, and below it, one member after the other.
#[cycle(walk)]
#[tactic(auto, using(reg_table::proofs::Walks::among_at))]
fn push_item(
    alloc: Global,
    item: &Item,
    outer: &Outer,
    made: &mut Seq<Spot>,
) -> Result<(), NoMemory>
    requires { FitIn outer.now.start outer.now.props (siblings (item_under item.now ∷ [])) }
    ensures { OnOk result (made.new ≡ made.old ++ spots_in outer.now.way outer.now.start outer.now.props (siblings (item_under item.now ∷ []))) }
{
    let count = count_of(item);
    for number in 0..count.unwrap_or(1) {
        push_member(alloc, item, index_at(count, number), outer, made)?;
    }
    Ok(())
}

/// Adds those of one member of a child, and below it.
#[cycle(walk)]
fn push_member(
    alloc: Global,
    item: &Item,
    index: Option<u64>,
    outer: &Outer,
    made: &mut Seq<Spot>,
) -> Result<(), NoMemory>
    requires among { IsAmong (value_of stated_dim (item_under item.now).1.keys) index }
    requires fits { FitIn outer.now.start outer.now.props (siblings (item_under item.now ∷ [])) }
    ensures { OnOk result (made.new ≡ made.old ++ member_spots outer.now.way outer.now.start outer.now.props (item_under item.now) index) }
{
    match &item.child {
        Child::Cluster(cluster) => {
            let children = cluster.children.as_slice();
            let inner = cluster_inside(alloc, &item.key, cluster, children, index, outer)?;
            push_items(alloc, children, &inner, made)
        }
        Child::Register(register) => {
            push_register(alloc, &item.key, register, index, outer, made)
        }
    }
}

/// How many members a child has, where it is an array.
fn count_of(item: &Item) -> Option<u64>
    ensures { result ≡ value_of stated_dim (item_under item.now).1.keys }
{
    match &item.child {
        Child::Cluster(cluster) => cluster.dim.count,
        Child::Register(register) => register.dim.count,
    }
}

/// The index of the member of this number: only an array's members have one.
pub(crate) fn index_at(count: Option<u64>, number: u64) -> Option<u64>
    ensures { result ≡ index_at count number }
{
    match count {
        Some(_) => Some(number),
        None => None,
    }
}

/// What holds round the children of a member of a cluster.
fn cluster_inside(
    alloc: Global,
    key: &Sibling,
    cluster: &Cluster,
    children: &[Item],
    index: Option<u64>,
    outer: &Outer,
) -> Result<Outer, NoMemory>
    requires among { IsAmong (out-Cluster cluster.now).dim.count index }
    requires fits { FitIn outer.now.start outer.now.props (siblings (cluster_under key.now cluster.now ∷ [])) }
    requires children { children.now ≡ (out-Cluster cluster.now).children.items }
    ensures fits { IfOk result (λ inner. AllFit inner.start inner.props children.now) }
    ensures spots { IfOk result (λ inner. member_spots outer.now.way outer.now.start outer.now.props (cluster_under key.now cluster.now) index ≡ spots_in inner.way inner.start inner.props (siblings (map item_under children.now))) }
{
    let _ = children;
    let alternate = cluster.alternate.is_some();
    Ok(Outer {
        way: way_inside(alloc, &outer.way, key, index, alternate)?,
        start: start_inside(outer.start, cluster.offset, index, cluster.dim.step),
        props: cluster.props.within(&outer.props),
    })
}

/// Adds one member of a register.
fn push_register(
    alloc: Global,
    key: &Sibling,
    register: &Register,
    index: Option<u64>,
    outer: &Outer,
    made: &mut Seq<Spot>,
) -> Result<(), NoMemory>
    requires among { IsAmong register.now.dim.count index }
    requires fits { FitIn outer.now.start outer.now.props (siblings (register_under key.now register.now ∷ [])) }
    ensures { OnOk result (made.new ≡ made.old ++ member_spots outer.now.way outer.now.start outer.now.props (register_under key.now register.now) index) }
{
    made.push(Spot {
        way: way_inside(alloc, &outer.way, key, index, false)?,
        name: key.name.copy(alloc)?,
        start: start_inside(outer.start, register.offset, index, register.dim.step),
        bytes: bytes_in(register.props.within(&outer.props)),
        alternate: copied(alloc, &register.alternate)?,
        grouped: register.group.is_some(),
        shared: shared_fields(alloc, register, &outer.props)?,
    })
}

/// Where a member of an element starts whose parent starts here: its offset, and its index times the step, behind that.
fn start_inside(start: u64, offset: u128, index: Option<u64>, step: Option<u64>) -> u64
    requires { start + (offset + unwrap_or index 0 * unwrap_or step 0) < 2 ^ 64 }
    ensures { result ≡ start + (offset + unwrap_or index 0 * unwrap_or step 0) }
{
    start + (offset as u64 + index.unwrap_or(0) * step.unwrap_or(0))
}

/// How many bytes a register takes at which these properties hold.
fn bytes_in(props: Props) -> u64
    ensures { result ≡ bytes_of (width_of (size_at props)) }
{
    let size = props.size.unwrap_or(32);
    if size <= 8 {
        1
    } else if size <= 16 {
        2
    } else if size <= 32 {
        4
    } else {
        8
    }
}

fn copied(alloc: Global, name: &Option<Name>) -> Result<Option<Name>, NoMemory>
    ensures { IfOk result (λ made. made ≡ name.now) }
{
    match name {
        Some(name) => Ok(Some(name.copy(alloc)?)),
        None => Ok(None),
    }
}

/// The way to a member of an element whose parent has this way.
fn way_inside(
    alloc: Global,
    outer: &Seq<Way>,
    key: &Sibling,
    index: Option<u64>,
    alternate: bool,
) -> Result<Seq<Way>, NoMemory>
    ensures { IfOk result (λ way. way ≡ outer.now ++ record { name = key.now.name; number = key.now.number; index = index; alternate = alternate } ∷ []) }
{
    let mut way = copied_way(alloc, outer)?;
    way.push(Way {
        name: key.name.copy(alloc)?,
        number: key.number,
        index,
        alternate,
    })?;
    Ok(way)
}

fn copied_way(alloc: Global, way: &Seq<Way>) -> Result<Seq<Way>, NoMemory>
    ensures { IfOk result (λ made. made ≡ way.now) }
{
    let mut made = Seq::new(alloc);
    for step in way.as_slice() {
        made.push(Way {
            name: step.name.copy(alloc)?,
            number: step.number,
            index: step.index,
            alternate: step.alternate,
        })?;
    }
    Ok(made)
}
