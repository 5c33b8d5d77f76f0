ghost use Rattle.std.specs.Prelude.{◌≡◌, IfOk};
ghost use Rattle.yaml_block.specs.Nodes.{node_tree};
ghost use Rattle.patch_form.specs.Finding.{First};
ghost use Rattle.patch_form.specs.Mappings.{delete_demands, strip_demands};

use crate::fault::{Fault, FaultKind};
use crate::key::pattern_fault;
use crate::texts::{pattern_items, prefix_items};
use crate::unmet::fault;
use pac_base::NoMemory;
use std::alloc::Global;
use yaml_block::Node;

/// The first fault in the value of `_delete`: a pattern or a list of patterns.
pub fn delete_fault(alloc: Global, line: u32, node: &Node) -> Result<Option<Fault>, NoMemory>
    ensures { IfOk result (First (delete_demands line (node_tree node.now))) }
{
    match node {
        Node::Empty => Ok(fault(line, FaultKind::BadValue)),
        Node::Scalar(text) => pattern_fault(alloc, line, text),
        Node::List(items) => pattern_items(alloc, items.items.as_slice()),
        Node::Map(_) => Ok(fault(line, FaultKind::BadValue)),
    }
}

/// The first fault in the value of `_strip`: a prefix or a list of prefixes.
pub fn strip_fault(line: u32, node: &Node) -> Option<Fault>
    ensures { First (strip_demands line (node_tree node.now)) result }
{
    match node {
        Node::Empty => fault(line, FaultKind::BadValue),
        Node::Scalar(_) => None,
        Node::List(items) => prefix_items(items.items.as_slice()),
        Node::Map(_) => fault(line, FaultKind::BadValue),
    }
}
