//! Registers and clusters of peripherals and clusters, made of settled elements.
ghost use Rattle.std.specs.Prelude.{◌≡◌, ◌++◌, ◌∷◌, [], Some, false, map, IfOk, IfSome, IfNone, OnOk};
ghost use Rattle.std.specs.List.{AllByRecursion};
ghost use Rattle.derive_build.specs.Children.{step_by};
ghost use Rattle.derive_build.specs.Nodes.{own_node};
ghost use Rattle.derive_build.specs.Tables.{HasKids, IsKid, is_kid, tree_of, under};
ghost use Rattle.derive_build.specs.Taking.{cluster_by};
ghost use Rattle.svd_model.specs.Steps.{cluster, register};
ghost use Rattle.svd_model.specs.Trees.{cluster_tree, item_under, register_tree, step_of};
ghost use Rattle.svd_rows.specs.Forest.{siblings};
ghost use Rattle.svd_rows.specs.Ranks.{stated};

use crate::copies::{copied_key, copied_name, dim_of};
use crate::field::register_of;
use crate::keys::Keys;
use crate::own::Own;
use crate::settled::Settled;
use pac_base::NoMemory;
use std::alloc::Global;
use svd_model::{Child, Cluster, Item, Register, Sibling, copied_path};

/// A cluster with these keys and children.
#[tactic(auto, unfolding(svd_model::specs::Trees::cluster_places))]
fn with_children(
    alloc: Global,
    keys: &Keys<'_>,
    element: &Cluster,
    children: Vec<Item>,
) -> Result<Cluster, NoMemory>
    ensures { IfOk result (λ made. cluster_tree made ≡ record { keys = stated (cluster_by element.now keys.now); below = siblings (map item_under children.items) }) }
{
    Ok(Cluster {
        derived: copied_path(alloc, &element.derived)?,
        dim: dim_of(alloc, keys)?,
        offset: element.offset,
        alternate: copied_name(alloc, keys.alternate)?,
        props: keys.props,
        children,
    })
}

/// A cluster under its key.
fn cluster_item(alloc: Global, key: &Sibling, inner: Cluster) -> Result<Item, NoMemory>
    ensures { IfOk result (λ made. item_under made ≡ (step_of cluster key.now, cluster_tree inner)) }
{
    Ok(Item {
        key: copied_key(alloc, key)?,
        child: Child::Cluster(inner),
    })
}

/// A register under its key.
fn register_item(alloc: Global, key: &Sibling, inner: Register) -> Result<Item, NoMemory>
    ensures { IfOk result (λ made. item_under made ≡ (step_of register key.now, register_tree inner)) }
{
    Ok(Item {
        key: copied_key(alloc, key)?,
        child: Child::Register(inner),
    })
}

/// The registers and clusters of these numbers. Below so many levels there are none.
#[cycle(build)]
pub(crate) fn items_of(
    alloc: Global,
    table: &[Settled<'_>],
    numbers: &[usize],
    levels: usize,
) -> Result<Vec<Item>, NoMemory>
    ensures { IfOk result (λ made. AllByRecursion (IsKid table.now levels (Some cluster)) numbers.now → map item_under made.items ≡ map (under table.now levels) numbers.now) }
{
    let mut made = Vec::new(alloc);
    for number in numbers {
        add_item(alloc, table, *number, levels, &mut made)?;
    }
    Ok(made)
}

/// Adds the register or cluster of a number.
#[cycle(build)]
fn add_item(
    alloc: Global,
    table: &[Settled<'_>],
    number: usize,
    levels: usize,
    made: &mut Vec<Item>,
) -> Result<(), NoMemory>
    ensures { OnOk result (IsKid table.now levels (Some cluster) number → map item_under made.new.items ≡ map item_under made.old.items ++ under table.now levels number ∷ []) }
{
    if levels == 0 {
        return Ok(());
    }
    match table.get(number) {
        Some(settled) => {
            if let Some(item) = item_of(alloc, table, settled, levels - 1)? {
                made.push(item)?;
            }
            Ok(())
        }
        None => Ok(()),
    }
}

/// The register or cluster that a settled element is.
#[cycle(build)]
fn item_of(
    alloc: Global,
    table: &[Settled<'_>],
    settled: &Settled<'_>,
    levels: usize,
) -> Result<Option<Item>, NoMemory>
    ensures is { IfOk result (λ found. IfSome found (λ item. HasKids table.now levels settled.now → item_under item ≡ (step_by (own_node settled.now.own), tree_of table.now levels settled.now))) }
    ensures other { IfOk result (λ found. IfNone found (is_kid (Some cluster) (own_node settled.now.own).kind ≡ false)) }
{
    match settled.own {
        Own::Cluster(key, element) => {
            let children = items_of(alloc, table, settled.children.as_slice(), levels)?;
            let cluster = with_children(alloc, &settled.keys, element, children)?;
            Ok(Some(cluster_item(alloc, key, cluster)?))
        }
        Own::Register(key, element) => {
            let register = register_of(alloc, table, settled, element)?;
            Ok(Some(register_item(alloc, key, register)?))
        }
        _ => Ok(None),
    }
}
