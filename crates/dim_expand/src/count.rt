ghost use Rattle.std.specs.Prelude.{◌≡◌, ◌+◌, ◌*◌, ◌^◌, ◌<◌, true, cond, length, map, unwrap_or};
ghost use Rattle.std.specs.List.{sum_by};
ghost use Rattle.pac_base.specs.Names.{IsName};
ghost use Rattle.svd_model.specs.Counting.{told_count};
ghost use Rattle.svd_model.specs.Steps.{set, cluster, register, field};
ghost use Rattle.svd_model.specs.Trees.{item_under, cluster_tree, register_tree, field_under, peripheral_under, set_tree, numbered, step_of};
ghost use Rattle.svd_rows.specs.Forest.{siblings};
ghost use Rattle.dim_expand.specs.Walks.{AreTyped, IsTypedAt, counts_kind, weighed, weighed_at, weight_by};

use crate::mark::is_list_name;
use indexmap::IndexMap;
use pac_base::Name;
use svd_model::{Child, Cluster, Counted, Dim, Field, Item, Peripheral, Register, Sibling, Values};

/// How often what stands at an element of that name counts, where elements of its kind may be arrays or not: as often as
/// it has members, but that an array is one element. The name is a name, and the step has 64 bits.
fn weight(counted: Counted, arrays: bool, name: &Name, dim: &Dim) -> u64
    ensures weight { result ≡ weight_by counted arrays name.now dim.now.count }
    ensures named { IsName name.now }
    ensures small { unwrap_or dim.now.step 0 < 2 ^ 64 }
{
    let is_list = is_list_name(arrays, name);
    let members = dim.count.unwrap_or(1);
    let _step = dim.step.unwrap_or(0);
    match counted {
        Counted::Elements if is_list => dim.count.unwrap_or(0),
        Counted::Elements => 1,
        Counted::Registers => members,
        Counted::Fields => members,
        Counted::Values => members,
    }
}

/// Whether a peripheral or cluster counts.
fn counts_group(counted: Counted) -> bool
    ensures { result ≡ counts_kind counted cluster }
{
    match counted {
        Counted::Elements => true,
        Counted::Registers => false,
        Counted::Fields => false,
        Counted::Values => false,
    }
}

fn counts_register(counted: Counted) -> bool
    ensures { result ≡ counts_kind counted register }
{
    match counted {
        Counted::Elements => true,
        Counted::Registers => true,
        Counted::Fields => false,
        Counted::Values => false,
    }
}

fn counts_field(counted: Counted) -> bool
    ensures { result ≡ counts_kind counted field }
{
    match counted {
        Counted::Elements => true,
        Counted::Registers => false,
        Counted::Fields => true,
        Counted::Values => false,
    }
}

/// So many times what counts at an element and below it, up to 2^64 - 1.
fn times(weight: u64, own: bool, below: u64) -> u64
    ensures { result ≡ told_count (weight * told_count (cond own 1 0 + below)) }
{
    let here = if own { below.saturating_add(1) } else { below };
    weight.saturating_mul(here)
}

/// How many values there are in these sets.
fn all_values(sets: &[Values]) -> u64
    ensures { result ≡ told_count (sum_by (λ set. length set.items.items) sets.now) }
{
    let mut total: u64 = 0;
    for values in sets {
        total = total.saturating_add(values.items.len() as u64);
    }
    total
}

/// How much the sets of a field come to.
fn sets_count(counted: Counted, sets: &[Values]) -> u64
    ensures { result ≡ told_count (weighed counted (numbered set 0 (map set_tree sets.now))) }
{
    let values = all_values(sets);
    match counted {
        Counted::Elements => values,
        Counted::Registers => 0,
        Counted::Fields => 0,
        Counted::Values => values,
    }
}

fn field_count(counted: Counted, key: &Sibling, element: &Field) -> u64
    ensures count { result ≡ told_count (weighed_at counted (field_under (key.now, element.now))) }
    ensures typed { IsTypedAt (field_under (key.now, element.now)) }
{
    let weight = weight(counted, true, &key.name, &element.dim);
    let below = sets_count(counted, element.values.as_slice());
    times(weight, counts_field(counted), below)
}

fn fields_count(counted: Counted, fields: &IndexMap<Sibling, Field>) -> u64
    ensures count { result ≡ told_count (weighed counted (siblings (map field_under fields.now.entries))) }
    ensures typed { AreTyped true (siblings (map field_under fields.now.entries)) }
{
    let mut total: u64 = 0;
    for (key, field) in fields {
        total = total.saturating_add(field_count(counted, key, field));
    }
    total
}

fn register_count(counted: Counted, key: &Sibling, element: &Register) -> u64
    ensures count { result ≡ told_count (weighed_at counted (step_of register key.now, register_tree element.now)) }
    ensures typed { IsTypedAt (step_of register key.now, register_tree element.now) }
{
    let weight = weight(counted, true, &key.name, &element.dim);
    let below = fields_count(counted, &element.fields);
    times(weight, counts_register(counted), below)
}

#[cycle(count)]
fn cluster_count(counted: Counted, key: &Sibling, element: &Cluster) -> u64
    ensures count { result ≡ told_count (weighed_at counted (step_of cluster key.now, cluster_tree element.now)) }
    ensures typed { IsTypedAt (step_of cluster key.now, cluster_tree element.now) }
{
    let weight = weight(counted, true, &key.name, &element.dim);
    let below = items_count(counted, element.children.as_slice());
    times(weight, counts_group(counted), below)
}

#[cycle(count)]
fn item_count(counted: Counted, item: &Item) -> u64
    ensures count { result ≡ told_count (weighed_at counted (item_under item.now)) }
    ensures typed { IsTypedAt (item_under item.now) }
{
    match &item.child {
        Child::Cluster(cluster) => cluster_count(counted, &item.key, cluster),
        Child::Register(register) => register_count(counted, &item.key, register),
    }
}

#[cycle(count)]
fn items_count(counted: Counted, items: &[Item]) -> u64
    ensures count { result ≡ told_count (weighed counted (siblings (map item_under items.now))) }
    ensures typed { AreTyped true (siblings (map item_under items.now)) }
{
    let mut total: u64 = 0;
    for item in items {
        total = total.saturating_add(item_count(counted, item));
    }
    total
}

fn peripheral_count(counted: Counted, key: &Sibling, element: &Peripheral) -> u64
    ensures count { result ≡ told_count (weighed_at counted (peripheral_under (key.now, element.now))) }
    ensures typed { IsTypedAt (peripheral_under (key.now, element.now)) }
{
    let weight = weight(counted, false, &key.name, &element.dim);
    let below = items_count(counted, element.children.as_slice());
    times(weight, counts_group(counted), below)
}

/// How much the peripherals of a device and all below them come to, where each list is unfolded: elements with each
/// array as one, and registers, fields and values with every member. 2^64 - 1 where it is more.
pub fn peripherals_count(counted: Counted, peripherals: &IndexMap<Sibling, Peripheral>) -> u64
    ensures count { result ≡ told_count (weighed counted (siblings (map peripheral_under peripherals.now.entries))) }
    ensures typed { AreTyped true (siblings (map peripheral_under peripherals.now.entries)) }
{
    let mut total: u64 = 0;
    for (key, peripheral) in peripherals {
        total = total.saturating_add(peripheral_count(counted, key, peripheral));
    }
    total
}
