ghost use Rattle.std.specs.Prelude.{◌≡◌, IfOk, map};
ghost use Rattle.yaml_block.specs.Nodes.{item_under, node_tree};
ghost use Rattle.yaml_block.specs.Trees.{items_of};
ghost use Rattle.patch_form.specs.Finding.{First};
ghost use Rattle.patch_form.specs.Mappings.{pattern_item, pattern_items, prefix_item, prefix_items};

use crate::fault::{Fault, FaultKind};
use crate::key::pattern_fault;
use crate::place::scalar;
use crate::unmet::{earlier, fault};
use pac_base::NoMemory;
use std::alloc::Global;
use yaml_block::Node;

fn pattern_item(alloc: Global, line: u32, node: &Node) -> Result<Option<Fault>, NoMemory>
    ensures { IfOk result (First (pattern_item line (node_tree node.now))) }
{
    match scalar(node) {
        Some(text) => pattern_fault(alloc, line, text),
        None => Ok(fault(line, FaultKind::BadValue)),
    }
}

/// The first fault in a list of patterns.
pub fn pattern_items(alloc: Global, items: &[(u32, Node)]) -> Result<Option<Fault>, NoMemory>
    ensures { IfOk result (First (pattern_items (items_of (map item_under items.now)))) }
{
    let mut found = None;
    for item in items {
        found = earlier(found, pattern_item(alloc, item.0, &item.1)?);
    }
    Ok(found)
}

fn prefix_item(line: u32, node: &Node) -> Option<Fault>
    ensures { First (prefix_item line (node_tree node.now)) result }
{
    match scalar(node) {
        Some(_) => None,
        None => fault(line, FaultKind::BadValue),
    }
}

/// The first fault in a list of prefixes.
pub fn prefix_items(items: &[(u32, Node)]) -> Option<Fault>
    ensures { First (prefix_items (items_of (map item_under items.now))) result }
{
    let mut found = None;
    for item in items {
        found = earlier(found, prefix_item(item.0, &item.1));
    }
    found
}
