ghost use Rattle.std.specs.Prelude.{◌≡◌, IfOk, Some, map, codes};
ghost use Rattle.yaml_block.specs.Nodes.{entry_under, node_tree};
ghost use Rattle.yaml_block.specs.Trees.{entries_of};
ghost use Rattle.patch_model.specs.Acts.{added_of, addition_under, additions_under, no_more};
ghost use Rattle.patch_form.specs.Unmet.{AllMet};
ghost use Rattle.patch_form.specs.Demands.{addition_demands, each_key};
ghost use Rattle.patch_model.specs.Held.{AreAdditionsMet, AreKeysMet, addition_entry};
ghost use Rattle.patch_model.specs.Orders.{added_at, added_below, added_in, added_one, added_under};
ghost use Rattle.patch_form.specs.Words.{key_kind};
ghost use Rattle.patch_form.specs.declared.form.KeyKind.TheVariants as kinds;

use crate::act::{Addition, Additions};
use crate::kept::kept_keys;
use crate::leaf::{entries_in, name_of};
use pac_base::{NoMemory, Text};
use patch_form::place::is_key;
use patch_form::word::Purpose;
use std::alloc::Global;
use yaml_block::Node;

fn none_added(alloc: Global) -> Additions
    ensures { added_of (additions_under result) ≡ no_more }
{
    Additions::new(alloc)
}

/// The element that a new name with its keys adds, and those within it.
#[cycle(added)]
pub fn added_one(alloc: Global, line: u32, name: &Text, node: &Node) -> Result<Addition, NoMemory>
    requires met { AllMet (addition_entry line name.now (node_tree node.now)) }
    ensures { IfOk result (λ made. addition_under made ≡ added_one name.now (node_tree node.now)) }
{
    let keys = kept_keys(alloc, Purpose::Adding, entries_in(node))?;
    let registers = added_under(alloc, node, b"registers")?;
    let fields = added_under(alloc, node, b"fields")?;
    let name = name_of(alloc, name.as_str().as_bytes())?;
    Ok(Addition {
        name,
        keys,
        registers,
        fields,
    })
}

/// Those that stand at a key.
#[cycle(added)]
fn added_under(alloc: Global, node: &Node, key: &[u8]) -> Result<Additions, NoMemory>
    requires children { key_kind key.now ≡ Some kinds.Children }
    requires met { AreKeysMet (node_tree node.now) }
    ensures { IfOk result (λ made. added_of (additions_under made) ≡ added_under key.now (node_tree node.now)) }
{
    match node {
        Node::Empty => Ok(none_added(alloc)),
        Node::Scalar(_) => Ok(none_added(alloc)),
        Node::List(_) => Ok(none_added(alloc)),
        Node::Map(entries) => added_at(alloc, entries.entries.as_slice(), key),
    }
}

#[cycle(added)]
fn added_at(alloc: Global, entries: &[(u32, Text, Node)], key: &[u8]) -> Result<Additions, NoMemory>
    requires children { key_kind key.now ≡ Some kinds.Children }
    requires met { AllMet (each_key (entries_of (map entry_under entries.now))) }
    ensures { IfOk result (λ made. added_of (additions_under made) ≡ added_at key.now (entries_of (map entry_under entries.now))) }
{
    for entry in entries {
        if is_key(&entry.1, key) {
            return added_below(alloc, &entry.2);
        }
    }
    Ok(none_added(alloc))
}

#[cycle(added)]
fn added_below(alloc: Global, node: &Node) -> Result<Additions, NoMemory>
    requires met { AreAdditionsMet (node_tree node.now) }
    ensures { IfOk result (λ made. added_of (additions_under made) ≡ added_below (node_tree node.now)) }
{
    match node {
        Node::Empty => Ok(none_added(alloc)),
        Node::Scalar(_) => Ok(none_added(alloc)),
        Node::List(_) => Ok(none_added(alloc)),
        Node::Map(entries) => added_in(alloc, entries.entries.as_slice()),
    }
}

#[cycle(added)]
fn added_in(alloc: Global, entries: &[(u32, Text, Node)]) -> Result<Additions, NoMemory>
    requires met { AllMet (addition_demands (entries_of (map entry_under entries.now))) }
    ensures { IfOk result (λ made. added_of (additions_under made) ≡ added_in (entries_of (map entry_under entries.now))) }
{
    let mut made = Additions::new(alloc);
    for entry in entries {
        made.push(added_one(alloc, entry.0, &entry.1, &entry.2)?)?;
    }
    Ok(made)
}
