ghost use Rattle.std.specs.Prelude.{◌≡◌, ◌++◌, ◌∷◌, [], ◌+◌, ◌*◌, ◌<◌, ◌^◌, map, unwrap_or, All, IfOk, OnOk};
ghost use Rattle.reg_table.specs.Listing.{IsListed};
ghost use Rattle.reg_table.specs.Registers.{table_of};
ghost use Rattle.reg_table.specs.Walk.{AllFit, FitIn, IsAmong, index_at, member_rows, path_inside, peripheral_path, rows_in};
ghost use Rattle.svd_model.specs.declared.device.Cluster.{out-Cluster};
ghost use Rattle.svd_model.specs.Properties.{holding};
ghost use Rattle.svd_model.specs.Stating.{stated_dim, value_of};
ghost use Rattle.svd_model.specs.Trees.{item_under, cluster_under, register_under};
ghost use Rattle.svd_rows.specs.Forest.{siblings};

use crate::register::register_row;
use crate::row::{RowPath, Table};
use pac_base::{NoMemory, Path, Seq, Step};
use std::alloc::Global;
use svd_model::{Checked, Child, Cluster, Item, Peripheral, Props, Register, Sibling};
use svd_values::{accessor, slot_name};

/// What holds round registers: the accessors down to their parent, where it starts, and the properties in it.
#[derive(Drop)]
struct Outer {
    path: RowPath,
    start: u64,
    props: Props,
}

/// The table of a description's registers, in document order: a row for each member of each register, where a member of
/// an array, with its content, precedes the next. The rows of any state can be listed.
pub fn table(alloc: Global, state: &Checked) -> Result<Table, NoMemory>
    ensures rows { IfOk result (λ rows. rows ≡ table_of state.now) }
    ensures listed { IfOk result (λ rows. All IsListed rows) }
{
    let device = state.device();
    let mut table = Seq::new(alloc);
    for (key, peripheral) in &device.peripherals {
        push_peripheral(alloc, key, peripheral, &device.props, &mut table)?;
    }
    Ok(table)
}

/// Adds the rows of the registers in a peripheral.
fn push_peripheral(
    alloc: Global,
    key: &Sibling,
    peripheral: &Peripheral,
    props: &Props,
    table: &mut Table,
) -> Result<(), NoMemory>
    requires start { peripheral.now.base < 2 ^ 64 }
    requires below { AllFit peripheral.now.base (holding (peripheral.now.props ∷ props.now ∷ [])) peripheral.now.children.items }
    ensures rows { OnOk result (table.new ≡ table.old ++ rows_in (peripheral_path key.now.name) peripheral.now.base (holding (peripheral.now.props ∷ props.now ∷ [])) (siblings (map item_under peripheral.now.children.items))) }
    ensures listed { OnOk result (All IsListed table.old → All IsListed table.new) }
{
    let outer = Outer {
        path: RowPath {
            slot: slot_name(alloc, &key.name)?,
            steps: Seq::new(alloc),
        },
        start: peripheral.base as u64,
        props: peripheral.props.within(props),
    };
    push_items(alloc, peripheral.children.as_slice(), &outer, table)
}

/// Adds the rows of the registers among children and below them.
#[cycle(walk)]
fn push_items(
    alloc: Global,
    items: &[Item],
    outer: &Outer,
    table: &mut Table,
) -> Result<(), NoMemory>
    requires { AllFit outer.now.start outer.now.props items.now }
    ensures rows { OnOk result (table.new ≡ table.old ++ rows_in outer.now.path outer.now.start outer.now.props (siblings (map item_under items.now))) }
    ensures listed { OnOk result (All IsListed table.old → All IsListed table.new) }
{
    for item in items {
        push_item(alloc, item, outer, table)?;
    }
    Ok(())
}

/// Adds the rows of each member of a child, and below it, one member after the other.
#[cycle(walk)]
#[tactic(auto, using(crate::proofs::Walks::among_at))]
fn push_item(alloc: Global, item: &Item, outer: &Outer, table: &mut Table) -> Result<(), NoMemory>
    requires { FitIn outer.now.start outer.now.props (siblings (item_under item.now ∷ [])) }
    ensures rows { OnOk result (table.new ≡ table.old ++ rows_in outer.now.path outer.now.start outer.now.props (siblings (item_under item.now ∷ []))) }
    ensures listed { OnOk result (All IsListed table.old → All IsListed table.new) }
{
    let count = count_of(item);
    for number in 0..count.unwrap_or(1) {
        push_member(alloc, item, index_at(count, number), outer, table)?;
    }
    Ok(())
}

/// Adds the rows of one member of a child, and below it.
#[cycle(walk)]
fn push_member(
    alloc: Global,
    item: &Item,
    index: Option<u64>,
    outer: &Outer,
    table: &mut Table,
) -> Result<(), NoMemory>
    requires among { IsAmong (value_of stated_dim (item_under item.now).1.keys) index }
    requires fits { FitIn outer.now.start outer.now.props (siblings (item_under item.now ∷ [])) }
    ensures rows { OnOk result (table.new ≡ table.old ++ member_rows outer.now.path outer.now.start outer.now.props (item_under item.now) index) }
    ensures listed { OnOk result (All IsListed table.old → All IsListed table.new) }
{
    match &item.child {
        Child::Cluster(cluster) => {
            let children = cluster.children.as_slice();
            let inner = cluster_inside(alloc, &item.key, cluster, children, index, outer)?;
            push_items(alloc, children, &inner, table)
        }
        Child::Register(register) => {
            push_register(alloc, &item.key, register, index, outer, table)
        }
    }
}

/// How many members a child has, where it is an array.
fn count_of(item: &Item) -> Option<u64>
    ensures { result ≡ value_of stated_dim (item_under item.now).1.keys }
{
    match &item.child {
        Child::Cluster(cluster) => cluster.dim.count,
        Child::Register(register) => register.dim.count,
    }
}

/// The index of the member of this number: only an array's members have one.
fn index_at(count: Option<u64>, number: u64) -> Option<u64>
    ensures { result ≡ index_at count number }
{
    match count {
        Some(_) => Some(number),
        None => None,
    }
}

/// What holds round the children of a member of a cluster.
fn cluster_inside(
    alloc: Global,
    key: &Sibling,
    cluster: &Cluster,
    children: &[Item],
    index: Option<u64>,
    outer: &Outer,
) -> Result<Outer, NoMemory>
    requires among { IsAmong (out-Cluster cluster.now).dim.count index }
    requires fits { FitIn outer.now.start outer.now.props (siblings (cluster_under key.now cluster.now ∷ [])) }
    requires children { children.now ≡ (out-Cluster cluster.now).children.items }
    ensures fits { IfOk result (λ inner. AllFit inner.start inner.props children.now) }
    ensures rows { IfOk result (λ inner. member_rows outer.now.path outer.now.start outer.now.props (cluster_under key.now cluster.now) index ≡ rows_in inner.path inner.start inner.props (siblings (map item_under children.now))) }
{
    let _ = children;
    Ok(Outer {
        path: path_inside(alloc, &outer.path, key, index)?,
        start: start_inside(outer.start, cluster.offset, index, cluster.dim.step),
        props: cluster.props.within(&outer.props),
    })
}

/// Adds the row of one member of a register.
fn push_register(
    alloc: Global,
    key: &Sibling,
    register: &Register,
    index: Option<u64>,
    outer: &Outer,
    table: &mut Table,
) -> Result<(), NoMemory>
    requires among { IsAmong register.now.dim.count index }
    requires fits { FitIn outer.now.start outer.now.props (siblings (register_under key.now register.now ∷ [])) }
    ensures rows { OnOk result (table.new ≡ table.old ++ member_rows outer.now.path outer.now.start outer.now.props (register_under key.now register.now) index) }
    ensures listed { OnOk result (All IsListed table.old → All IsListed table.new) }
{
    let path = path_inside(alloc, &outer.path, key, index)?;
    let address = start_inside(outer.start, register.offset, index, register.dim.step);
    table.push(register_row(alloc, path, address, register, &outer.props)?)
}

/// Where a member of an element starts whose parent starts here: its offset, and its index times the step, behind that.
fn start_inside(start: u64, offset: u128, index: Option<u64>, step: Option<u64>) -> u64
    requires { start + (offset + unwrap_or index 0 * unwrap_or step 0) < 2 ^ 64 }
    ensures { result ≡ start + (offset + unwrap_or index 0 * unwrap_or step 0) }
{
    start + (offset as u64 + index.unwrap_or(0) * step.unwrap_or(0))
}

/// The path of a member of an element whose parent has this path.
fn path_inside(
    alloc: Global,
    outer: &RowPath,
    key: &Sibling,
    index: Option<u64>,
) -> Result<RowPath, NoMemory>
    ensures { IfOk result (λ path. path ≡ path_inside outer.now key.now.name index) }
{
    let mut steps = copied_steps(alloc, &outer.steps)?;
    steps.push(Step {
        name: accessor(alloc, &key.name)?,
        index,
    })?;
    Ok(RowPath {
        slot: outer.slot.copy(alloc)?,
        steps,
    })
}

fn copied_steps(alloc: Global, path: &Path) -> Result<Path, NoMemory>
    ensures { IfOk result (λ made. made ≡ path.now) }
{
    let mut made = Seq::new(alloc);
    for step in path.as_slice() {
        made.push(Step {
            name: step.name.copy(alloc)?,
            index: step.index,
        })?;
    }
    Ok(made)
}
