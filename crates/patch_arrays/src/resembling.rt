ghost use Rattle.std.specs.Prelude.{◌≡◌};
ghost use Rattle.std.specs.Cmp.Lexicographic.{pointwise};
ghost use Rattle.patch_arrays.specs.Members.{is_alike};
ghost use Rattle.patch_arrays.specs.Siblings.{same_told};
ghost use Rattle.patch_arrays.specs.Unplaced.{IsMade, of_cluster, of_field, of_peripheral, of_register, same_field, same_item, same_unplaced};
ghost use Rattle.svd_model.specs.declared.device.Cluster.{out-Cluster};
ghost use Rattle.svd_model.specs.Trees.{child_tree, cluster_tree, field_tree, peripheral_tree, register_tree};

use crate::sameness::{same_dim, same_path, same_props, same_sets};
use indexmap::IndexMap;
use svd_model::{Child, Cluster, Field, Item, Peripheral, Register, Sibling};

#[tactic(auto, unfolding(crate::specs::Unplaced::same_unplaced))]
fn same_field_keys(one: &Field, other: &Field) -> bool
    ensures { result ≡ same_unplaced (of_field one.now) (of_field other.now) }
{
    one.place.width == other.place.width
        && one.kind == other.kind
        && one.action == other.action
        && same_dim(&one.dim, &other.dim)
        && one.access == other.access
        && same_path(&one.derived, &other.derived)
}

/// Whether two fields say the same but for their offsets.
pub(crate) fn is_like_field(one: &Field, other: &Field) -> bool
    ensures { result ≡ same_told (field_tree one.now) (field_tree other.now) }
{
    same_field_keys(one, other) && same_sets(one.values.as_slice(), other.values.as_slice())
}

fn same_field(key: &Sibling, one: &Field, also: &Sibling, other: &Field) -> bool
    ensures { result ≡ same_field (key.now, one.now) (also.now, other.now) }
{
    if key != also {
        return false;
    }
    if one.place.offset != other.place.offset {
        return false;
    }
    is_like_field(one, other)
}

fn same_fields(one: &IndexMap<Sibling, Field>, other: &IndexMap<Sibling, Field>) -> bool
    ensures { result ≡ pointwise same_field one.now.entries other.now.entries }
{
    if one.len() != other.len() {
        return false;
    }
    for index in 0..one.len() {
        let Some((key, field)) = one.get_index(index) else {
            return false;
        };
        let Some((also, twin)) = other.get_index(index) else {
            return false;
        };
        if !same_field(key, field, also, twin) {
            return false;
        }
    }
    true
}

#[tactic(auto, unfolding(crate::specs::Unplaced::same_unplaced))]
fn same_register_keys(one: &Register, other: &Register) -> bool
    ensures { result ≡ same_unplaced (of_register one.now) (of_register other.now) }
{
    one.alternate == other.alternate
        && one.group == other.group
        && one.kind == other.kind
        && one.action == other.action
        && same_dim(&one.dim, &other.dim)
        && same_props(&one.props, &other.props)
        && same_path(&one.derived, &other.derived)
}

fn is_like_register(one: &Register, other: &Register) -> bool
    ensures { result ≡ same_told (register_tree one.now) (register_tree other.now) }
{
    same_register_keys(one, other) && same_fields(&one.fields, &other.fields)
}

#[tactic(auto, unfolding(crate::specs::Unplaced::same_unplaced))]
fn same_cluster_keys(one: &Cluster, other: &Cluster) -> bool
    ensures { result ≡ same_unplaced (of_cluster (out-Cluster one.now)) (of_cluster (out-Cluster other.now)) }
{
    one.alternate == other.alternate
        && same_dim(&one.dim, &other.dim)
        && same_props(&one.props, &other.props)
        && same_path(&one.derived, &other.derived)
}

#[cycle(likeness)]
fn is_like_cluster(one: &Cluster, other: &Cluster) -> bool
    ensures { result ≡ same_told (cluster_tree one.now) (cluster_tree other.now) }
{
    same_cluster_keys(one, other) && same_items(one.children.as_slice(), other.children.as_slice())
}

/// Whether two children are of one kind, and say the same but for their offsets.
#[cycle(likeness)]
pub(crate) fn is_like_child(one: &Child, other: &Child) -> bool
    ensures { result ≡ is_alike (child_tree one.now) (child_tree other.now) }
{
    match one {
        Child::Cluster(cluster) => match other {
            Child::Cluster(twin) => is_like_cluster(cluster, twin),
            Child::Register(_) => false,
        },
        Child::Register(register) => match other {
            Child::Cluster(_) => false,
            Child::Register(twin) => is_like_register(register, twin),
        },
    }
}

/// How many bytes behind the start of its parent it starts.
pub(crate) fn offset_of(child: &Child) -> u128
    ensures { IsMade (child_tree child.now).1 result }
{
    match child {
        Child::Cluster(cluster) => cluster.offset,
        Child::Register(register) => register.offset,
    }
}

#[cycle(likeness)]
fn same_item(one: &Item, other: &Item) -> bool
    ensures { result ≡ same_item one.now other.now }
{
    if one.key != other.key {
        return false;
    }
    if offset_of(&one.child) != offset_of(&other.child) {
        return false;
    }
    is_like_child(&one.child, &other.child)
}

#[cycle(likeness)]
fn same_items(one: &[Item], other: &[Item]) -> bool
    ensures { result ≡ pointwise same_item one.now other.now }
{
    if one.len() != other.len() {
        return false;
    }
    for index in 0..one.len() {
        if !same_item(&one[index], &other[index]) {
            return false;
        }
    }
    true
}

#[tactic(auto, unfolding(crate::specs::Unplaced::same_unplaced))]
fn same_peripheral_keys(one: &Peripheral, other: &Peripheral) -> bool
    ensures { result ≡ same_unplaced (of_peripheral one.now) (of_peripheral other.now) }
{
    same_dim(&one.dim, &other.dim)
        && same_props(&one.props, &other.props)
        && same_path(&one.derived, &other.derived)
}

/// Whether two peripherals say the same but for their addresses.
pub(crate) fn is_like_peripheral(one: &Peripheral, other: &Peripheral) -> bool
    ensures { result ≡ same_told (peripheral_tree one.now) (peripheral_tree other.now) }
{
    same_peripheral_keys(one, other)
        && same_items(one.children.as_slice(), other.children.as_slice())
}
