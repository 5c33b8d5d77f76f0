ghost use Rattle.std.specs.Prelude.{◌≡◌, ◌++◌, ◌∷◌, [], List, IfOk, map, not, true};
ghost use Rattle.std.specs.List.{list_any};
ghost use Rattle.std.specs.Str.{bytes_eq};
ghost use Rattle.yaml_block.specs.Nesting.{doubles_among, doubles_behind, doubles_in, first};
ghost use Rattle.yaml_block.specs.Nodes.{entry_under, item_under, node_tree};
ghost use Rattle.yaml_block.specs.Seen.{keys_in};
ghost use Rattle.yaml_block.specs.Trees.{entries_of, items_of};

use crate::node::Node;
use indexmap::IndexSet;
use pac_base::{NoMemory, Text};
use std::alloc::Global;

/// Keeps the key, and says whether it is new.
fn is_new<'a>(seen: &mut IndexSet<&'a [u8]>, key: &'a Text) -> Result<bool, NoMemory>
    ensures new { IfOk result (λ fresh. fresh ≡ not (list_any (bytes_eq key.now) (keys_in seen.old))) }
    ensures kept { IfOk result (λ fresh. fresh ≡ true → keys_in seen.new ≡ keys_in seen.old ++ key.now ∷ []) }
{
    Ok(seen.insert(key.as_str().as_bytes())?)
}

/// The line of the first key in the node that equals an earlier one of its mapping. Nodes nest no
/// deeper than 64.
#[cycle(keys)]
pub fn double_key(alloc: Global, node: &Node) -> Result<Option<u32>, NoMemory>
    ensures { IfOk result (λ line. line ≡ first (doubles_in (node_tree node.now))) }
{
    match node {
        Node::Empty => Ok(None),
        Node::Scalar(_) => Ok(None),
        Node::List(items) => double_among(alloc, items.items.as_slice()),
        Node::Map(entries) => double_behind(alloc, entries.entries.as_slice()),
    }
}

#[cycle(keys)]
fn double_among(alloc: Global, items: &[(u32, Node)]) -> Result<Option<u32>, NoMemory>
    ensures { IfOk result (λ line. line ≡ first (doubles_among (items_of (map item_under items.now)))) }
{
    for item in items {
        if let Some(line) = double_key(alloc, &item.1)? {
            return Ok(Some(line));
        }
    }
    Ok(None)
}

#[cycle(keys)]
fn double_behind(alloc: Global, entries: &[(u32, Text, Node)]) -> Result<Option<u32>, NoMemory>
    ensures { IfOk result (λ line. line ≡ first (doubles_behind [] (entries_of (map entry_under entries.now)))) }
{
    let mut seen = IndexSet::new(alloc);
    for entry in entries {
        if !is_new(&mut seen, &entry.1)? {
            return Ok(Some(entry.0));
        }
        if let Some(line) = double_key(alloc, &entry.2)? {
            return Ok(Some(line));
        }
    }
    Ok(None)
}
