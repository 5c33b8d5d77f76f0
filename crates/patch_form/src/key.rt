ghost use Rattle.std.specs.Prelude.{◌≡◌, MatchBool, IfOk, map, codes};
ghost use Rattle.glob_select.specs.Refusals.{IsPattern};
ghost use Rattle.yaml_block.specs.Nodes.{node_tree, entry_under, item_under};
ghost use Rattle.yaml_block.specs.Trees.{entries_of, items_of};
ghost use Rattle.patch_form.specs.Demands.{addition_demands, each_key, element_demands, key_demands, of_form, one, pattern, place_demands, value_of_form};
ghost use Rattle.patch_form.specs.Finding.{First};
ghost use Rattle.patch_form.specs.Words.{key_kind};
ghost use Rattle.patch_form.specs.declared.form.Form.TheVariants as forms;
ghost use Rattle.patch_form.specs.declared.fault.FaultKind.TheVariants as kinds;

use crate::fault::{Fault, FaultKind};
use crate::form::{Form, KeyKind, has_form, trimmed};
use crate::place::{place_fault, scalar};
use crate::table::key_kind;
use crate::unmet::{earlier, fault, unless};
use glob_select::{Pattern, PatternFault};
use pac_base::{NoMemory, Text};
use std::alloc::Global;
use yaml_block::Node;

fn is_pattern(alloc: Global, text: &[u8]) -> Result<bool, NoMemory>
    ensures { IfOk result (λ formed. MatchBool formed (IsPattern text.now) (¬ (IsPattern text.now))) }
{
    match Pattern::new(alloc, text) {
        Ok(_) => Ok(true),
        Err(PatternFault::BadPattern { .. }) => Ok(false),
        Err(PatternFault::Memory) => Err(NoMemory),
    }
}

/// A fault where the text is no pattern.
pub fn pattern_fault(alloc: Global, line: u32, text: &Text) -> Result<Option<Fault>, NoMemory>
    ensures { IfOk result (First (one line kinds.BadPattern (pattern text.now))) }
{
    let formed = is_pattern(alloc, text.as_str().as_bytes())?;
    Ok(unless(formed, line, FaultKind::BadPattern))
}

/// A fault where the text hasn't the form.
pub fn form_fault(
    alloc: Global,
    line: u32,
    form: Form,
    text: &[u8],
) -> Result<Option<Fault>, NoMemory>
    ensures { IfOk result (First (one line kinds.BadValue (of_form form text.now))) }
{
    let formed = has_form(alloc, form, text)?;
    Ok(unless(formed, line, FaultKind::BadValue))
}

/// A fault where the value is no scalar of the form.
pub fn value_fault(
    alloc: Global,
    line: u32,
    form: Form,
    node: &Node,
) -> Result<Option<Fault>, NoMemory>
    ensures { IfOk result (First (value_of_form line form (node_tree node.now))) }
{
    match scalar(node) {
        Some(text) => form_fault(alloc, line, form, trimmed(text.as_str().as_bytes())),
        None => Ok(fault(line, FaultKind::BadValue)),
    }
}

#[cycle(keys)]
fn key_fault(
    alloc: Global,
    kind: Option<KeyKind>,
    line: u32,
    node: &Node,
) -> Result<Option<Fault>, NoMemory>
    ensures { IfOk result (First (key_demands kind line (node_tree node.now))) }
{
    match kind {
        None => Ok(fault(line, FaultKind::UnknownKey)),
        Some(known) => match known {
            KeyKind::PassedOver => Ok(None),
            KeyKind::Used(form) => value_fault(alloc, line, form, node),
            KeyKind::Children => match node {
                Node::Map(entries) => addition_faults(alloc, entries.entries.as_slice()),
                Node::Empty => Ok(fault(line, FaultKind::BadValue)),
                Node::Scalar(_) => Ok(fault(line, FaultKind::BadValue)),
                Node::List(_) => Ok(fault(line, FaultKind::BadValue)),
            },
        },
    }
}

#[cycle(keys)]
fn key_faults(alloc: Global, entries: &[(u32, Text, Node)]) -> Result<Option<Fault>, NoMemory>
    ensures { IfOk result (First (each_key (entries_of (map entry_under entries.now)))) }
{
    let mut found = None;
    for entry in entries {
        let kind = key_kind(entry.1.as_str().as_bytes());
        found = earlier(found, key_fault(alloc, kind, entry.0, &entry.2)?);
    }
    Ok(found)
}

/// The first fault in the keys of an element; nothing may stand there too.
#[cycle(keys)]
pub fn element_fault(alloc: Global, line: u32, node: &Node) -> Result<Option<Fault>, NoMemory>
    ensures { IfOk result (First (element_demands line (node_tree node.now))) }
{
    match node {
        Node::Empty => Ok(None),
        Node::Scalar(_) => Ok(fault(line, FaultKind::BadValue)),
        Node::List(_) => Ok(fault(line, FaultKind::BadValue)),
        Node::Map(entries) => {
            let keys = key_faults(alloc, entries.entries.as_slice())?;
            Ok(earlier(keys, place_fault(line, entries.entries.as_slice())))
        }
    }
}

/// The first fault in new names and their keys.
#[cycle(keys)]
pub fn addition_faults(
    alloc: Global,
    entries: &[(u32, Text, Node)],
) -> Result<Option<Fault>, NoMemory>
    ensures { IfOk result (First (addition_demands (entries_of (map entry_under entries.now)))) }
{
    let mut found = None;
    for entry in entries {
        let named = form_fault(alloc, entry.0, Form::Name, entry.1.as_str().as_bytes())?;
        let keyed = element_fault(alloc, entry.0, &entry.2)?;
        found = earlier(found, earlier(named, keyed));
    }
    Ok(found)
}
