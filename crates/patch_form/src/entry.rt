ghost use Rattle.std.specs.Prelude.{◌≡◌, IfOk, map};
ghost use Rattle.yaml_block.specs.Nodes.{entry_under, node_tree};
ghost use Rattle.yaml_block.specs.Trees.{entries_of};
ghost use Rattle.patch_form.specs.Demands.{names_array, one, present};
ghost use Rattle.patch_form.specs.declared.fault.FaultKind.TheVariants as kinds;
ghost use Rattle.patch_form.specs.Finding.{First, at_of};
ghost use Rattle.patch_form.specs.Mappings.{array_entry, copy_entry, device_demands, from_in, from_there, modify_by, modify_entry, name_in, name_marked, name_there, word_entry};

use crate::fault::{Fault, FaultKind};
use crate::form::{Form, KeyKind, trimmed};
use crate::key::{element_fault, form_fault, pattern_fault, value_fault};
use crate::naming::{has_mark, name_of_pattern};
use crate::place::{Entry, at_key, scalar};
use crate::table::device_key;
use crate::unmet::{earlier, fault, unless};
use crate::word::Word;
use pac_base::{NoMemory, Text};
use std::alloc::Global;
use yaml_block::Node;

fn from_there(line: u32, from: Option<&Entry>) -> Option<Fault>
    ensures { First (from_there line (at_of from.entry)) result }
{
    match from {
        None => fault(line, FaultKind::BadValue),
        Some(_) => None,
    }
}

fn from_fault(line: u32, node: &Node) -> Option<Fault>
    ensures { First (from_in line (node_tree node.now)) result }
{
    match node {
        Node::Empty => fault(line, FaultKind::BadValue),
        Node::Scalar(_) => None,
        Node::List(_) => None,
        Node::Map(entries) => from_there(line, at_key(entries.entries.as_slice(), b"from")),
    }
}

fn copy_fault(alloc: Global, line: u32, name: &Text, node: &Node) -> Result<Option<Fault>, NoMemory>
    ensures { IfOk result (First (copy_entry line name.now (node_tree node.now))) }
{
    let named = form_fault(alloc, line, Form::Name, name.as_str().as_bytes())?;
    let keyed = element_fault(alloc, line, node)?;
    Ok(earlier(named, earlier(keyed, from_fault(line, node))))
}

fn device_fault(
    alloc: Global,
    kind: Option<KeyKind>,
    line: u32,
    node: &Node,
) -> Result<Option<Fault>, NoMemory>
    ensures { IfOk result (First (device_demands kind line (node_tree node.now))) }
{
    match kind {
        None => Ok(fault(line, FaultKind::UnknownKey)),
        Some(known) => match known {
            KeyKind::Used(form) => value_fault(alloc, line, form, node),
            KeyKind::Children => Ok(fault(line, FaultKind::UnknownKey)),
            KeyKind::PassedOver => Ok(None),
        },
    }
}

fn modify_by(
    alloc: Global,
    own: Option<Option<KeyKind>>,
    line: u32,
    target: &Text,
    node: &Node,
) -> Result<Option<Fault>, NoMemory>
    ensures { IfOk result (First (modify_by own line target.now (node_tree node.now))) }
{
    match own {
        Some(kind) => device_fault(alloc, kind, line, node),
        None => {
            let formed = pattern_fault(alloc, line, target)?;
            let keyed = element_fault(alloc, line, node)?;
            Ok(earlier(formed, keyed))
        }
    }
}

fn modify_fault(
    alloc: Global,
    device: bool,
    line: u32,
    target: &Text,
    node: &Node,
) -> Result<Option<Fault>, NoMemory>
    ensures { IfOk result (First (modify_entry device line target.now (node_tree node.now))) }
{
    if device {
        let own = device_key(target.as_str().as_bytes());
        modify_by(alloc, own, line, target, node)
    } else {
        modify_by(alloc, None, line, target, node)
    }
}

fn mark_fault(entry: &Entry) -> Option<Fault>
    ensures { First (name_marked (present entry.now.0 (node_tree entry.now.2))) result }
{
    let Some(name) = scalar(&entry.2) else {
        return None;
    };
    let name = trimmed(name.as_str().as_bytes());
    unless(has_mark(name), entry.0, FaultKind::BadValue)
}

fn unnamed_fault(alloc: Global, line: u32, target: &Text) -> Result<Option<Fault>, NoMemory>
    ensures { IfOk result (First (one line kinds.BadValue (names_array target.now))) }
{
    let named = name_of_pattern(alloc, target.as_str().as_bytes())?;
    Ok(unless(named.is_some(), line, FaultKind::BadValue))
}

fn name_there(
    alloc: Global,
    line: u32,
    target: &Text,
    name: Option<&Entry>,
) -> Result<Option<Fault>, NoMemory>
    ensures { IfOk result (First (name_there line target.now (at_of name.entry))) }
{
    match name {
        None => unnamed_fault(alloc, line, target),
        Some(entry) => {
            let formed = pattern_fault(alloc, line, target)?;
            Ok(earlier(formed, mark_fault(entry)))
        }
    }
}

fn name_fault(
    alloc: Global,
    line: u32,
    target: &Text,
    node: &Node,
) -> Result<Option<Fault>, NoMemory>
    ensures { IfOk result (First (name_in line target.now (node_tree node.now))) }
{
    match node {
        Node::Empty => unnamed_fault(alloc, line, target),
        Node::Scalar(_) => Ok(None),
        Node::List(_) => Ok(None),
        Node::Map(entries) => {
            let name = at_key(entries.entries.as_slice(), b"name");
            name_there(alloc, line, target, name)
        }
    }
}

fn array_fault(
    alloc: Global,
    line: u32,
    target: &Text,
    node: &Node,
) -> Result<Option<Fault>, NoMemory>
    ensures { IfOk result (First (array_entry line target.now (node_tree node.now))) }
{
    let keyed = element_fault(alloc, line, node)?;
    let named = name_fault(alloc, line, target, node)?;
    Ok(earlier(keyed, named))
}

/// The first fault in an entry of a `_copy`, `_modify` or `_array`.
pub fn word_fault(
    alloc: Global,
    word: Word,
    device: bool,
    line: u32,
    key: &Text,
    node: &Node,
) -> Result<Option<Fault>, NoMemory>
    ensures { IfOk result (First (word_entry word device line key.now (node_tree node.now))) }
{
    match word {
        Word::Delete => Ok(None),
        Word::Copy => copy_fault(alloc, line, key, node),
        Word::Modify => modify_fault(alloc, device, line, key, node),
        Word::Add => Ok(None),
        Word::Strip => Ok(None),
        Word::Array => array_fault(alloc, line, key, node),
    }
}
