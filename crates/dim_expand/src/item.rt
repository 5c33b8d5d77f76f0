ghost use Rattle.std.specs.Prelude.{◌≡◌, ◌∷◌, [], IfOk, OnOk, map};
ghost use Rattle.svd_model.specs.Trees.{item_under, child_tree, cluster_tree, register_tree};
ghost use Rattle.svd_rows.specs.Forest.{siblings};
ghost use Rattle.dim_expand.specs.Groups.{HasDim};
ghost use Rattle.dim_expand.specs.Narrow.{AreFew, IsNarrow, IsNarrowForest};
ghost use Rattle.dim_expand.specs.Tallies.{Pushes};
ghost use Rattle.dim_expand.specs.Walks.{capped, group_tree, groups_at, unfolded, unfolded_list};

use crate::field::unfolded_fields;
use crate::group::{group_at, group_dim, group_name, group_start, list_count};
use crate::tally::Tally;
use pac_base::NoMemory;
use std::alloc::Global;
use svd_model::{Child, Cluster, Dim, Item, Register, copied_name, copied_path};

/// A group of a register.
fn register_group(
    alloc: Global,
    element: &Register,
    group: Option<u64>,
) -> Result<Register, NoMemory>
    ensures { IfOk result (λ made. AreFew (register_tree element.now).below → register_tree made ≡ group_tree capped (register_tree element.now) group) }
{
    Ok(Register {
        derived: copied_path(alloc, &element.derived)?,
        dim: group_dim(alloc, &element.dim, group)?,
        offset: group_start(element.offset, &element.dim, group),
        alternate: copied_name(alloc, &element.alternate)?,
        group: copied_name(alloc, &element.group)?,
        props: element.props,
        kind: element.kind,
        action: element.action,
        fields: unfolded_fields(alloc, &element.fields)?,
    })
}

/// A group of a cluster.
#[cycle(unfold)]
fn cluster_group(alloc: Global, element: &Cluster, group: Option<u64>) -> Result<Cluster, NoMemory>
    ensures { IfOk result (λ made. IsNarrowForest (cluster_tree element.now).below → cluster_tree made ≡ group_tree capped (cluster_tree element.now) group) }
{
    Ok(Cluster {
        derived: copied_path(alloc, &element.derived)?,
        dim: group_dim(alloc, &element.dim, group)?,
        offset: group_start(element.offset, &element.dim, group),
        alternate: copied_name(alloc, &element.alternate)?,
        props: element.props,
        children: unfolded_items(alloc, element.children.as_slice())?,
    })
}

/// A group of a child.
#[cycle(unfold)]
fn child_group(alloc: Global, child: &Child, group: Option<u64>) -> Result<Child, NoMemory>
    ensures { IfOk result (λ made. IsNarrow (child_tree child.now) → child_tree made ≡ ((child_tree child.now).0, group_tree capped (child_tree child.now).1 group)) }
{
    match child {
        Child::Cluster(cluster) => Ok(Child::Cluster(cluster_group(alloc, cluster, group)?)),
        Child::Register(register) => Ok(Child::Register(register_group(alloc, register, group)?)),
    }
}

fn dim_of(child: &Child) -> &Dim
    ensures { HasDim (child_tree child.now).1.keys result.now }
{
    match child {
        Child::Cluster(cluster) => &cluster.dim,
        Child::Register(register) => &register.dim,
    }
}

#[cycle(unfold)]
fn push_item(
    alloc: Global,
    item: &Item,
    made: &mut Vec<Item>,
    tally: &mut Tally,
    group: Option<u64>,
) -> Result<(), NoMemory>
    ensures { OnOk result (IsNarrow (child_tree item.now.child) → Pushes tally.old.counts.entries (map item_under made.old.items) (groups_at capped (item_under item.now) (group ∷ [])) tally.new.counts.entries (map item_under made.new.items)) }
{
    let name = group_name(alloc, &item.key.name, dim_of(&item.child), group)?;
    let child = child_group(alloc, &item.child, group)?;
    let key = tally.next(alloc, name)?;
    made.push(Item { key, child })?;
    Ok(())
}

#[cycle(unfold)]
fn push_items(
    alloc: Global,
    item: &Item,
    made: &mut Vec<Item>,
    tally: &mut Tally,
) -> Result<(), NoMemory>
    ensures { OnOk result (IsNarrow (child_tree item.now.child) → Pushes tally.old.counts.entries (map item_under made.old.items) (unfolded_list capped (siblings (item_under item.now ∷ []))) tally.new.counts.entries (map item_under made.new.items)) }
{
    let count = list_count(true, &item.key.name, dim_of(&item.child));
    for place in 0..count.unwrap_or(1) {
        push_item(alloc, item, made, tally, group_at(count, place))?;
    }
    Ok(())
}

/// The children of a peripheral or cluster, where each list has become its members.
#[cycle(unfold)]
pub fn unfolded_items(alloc: Global, items: &[Item]) -> Result<Vec<Item>, NoMemory>
    ensures { IfOk result (λ made. IsNarrowForest (siblings (map item_under items.now)) → siblings (map item_under made.items) ≡ unfolded capped (siblings (map item_under items.now))) }
{
    let mut made = Vec::new(alloc);
    let mut tally = Tally::new(alloc);
    for item in items {
        push_items(alloc, item, &mut made, &mut tally)?;
    }
    Ok(made)
}
