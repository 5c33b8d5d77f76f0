ghost use Rattle.std.specs.Prelude.{◌≡◌, IfOk, map};
ghost use Rattle.yaml_block.specs.Nodes.{entry_under, node_tree};
ghost use Rattle.yaml_block.specs.Trees.{entries_of};
ghost use Rattle.patch_form.specs.Demands.{addition_demands};
ghost use Rattle.patch_form.specs.Finding.{First};
ghost use Rattle.patch_form.specs.Mappings.{command_demands, entries_demands, entry_demands, mapping_demands, opened_demands, patch_demands, word_entries, word_entry};

use crate::entry::word_fault;
use crate::fault::{Fault, FaultKind};
use crate::key::{addition_faults, pattern_fault};
use crate::place::Entry;
use crate::table::key_word;
use crate::unmet::{earlier, fault};
use crate::value::{delete_fault, strip_fault};
use crate::word::{KeyWord, Word};
use pac_base::{NoMemory, Text};
use std::alloc::Global;
use yaml_block::Node;

/// The first fault in the entries of a `_copy`, `_modify` or `_array`.
fn word_faults(
    alloc: Global,
    word: Word,
    device: bool,
    entries: &[Entry],
) -> Result<Option<Fault>, NoMemory>
    ensures { IfOk result (First (word_entries word device (entries_of (map entry_under entries.now)))) }
{
    let mut found = None;
    for entry in entries {
        found = earlier(
            found,
            word_fault(alloc, word, device, entry.0, &entry.1, &entry.2)?,
        );
    }
    Ok(found)
}

fn words_fault(
    alloc: Global,
    word: Word,
    device: bool,
    line: u32,
    node: &Node,
) -> Result<Option<Fault>, NoMemory>
    ensures { IfOk result (First (entries_demands (word_entries word device) line (node_tree node.now))) }
{
    match node {
        Node::Empty => Ok(fault(line, FaultKind::BadValue)),
        Node::Scalar(_) => Ok(fault(line, FaultKind::BadValue)),
        Node::List(_) => Ok(fault(line, FaultKind::BadValue)),
        Node::Map(entries) => word_faults(alloc, word, device, entries.entries.as_slice()),
    }
}

fn add_fault(alloc: Global, line: u32, node: &Node) -> Result<Option<Fault>, NoMemory>
    ensures { IfOk result (First (entries_demands addition_demands line (node_tree node.now))) }
{
    match node {
        Node::Empty => Ok(fault(line, FaultKind::BadValue)),
        Node::Scalar(_) => Ok(fault(line, FaultKind::BadValue)),
        Node::List(_) => Ok(fault(line, FaultKind::BadValue)),
        Node::Map(entries) => addition_faults(alloc, entries.entries.as_slice()),
    }
}

fn command_fault(
    alloc: Global,
    word: Word,
    device: bool,
    line: u32,
    node: &Node,
) -> Result<Option<Fault>, NoMemory>
    ensures { IfOk result (First (command_demands word device line (node_tree node.now))) }
{
    match word {
        Word::Delete => delete_fault(alloc, line, node),
        Word::Copy => words_fault(alloc, Word::Copy, device, line, node),
        Word::Modify => words_fault(alloc, Word::Modify, device, line, node),
        Word::Add => add_fault(alloc, line, node),
        Word::Strip => Ok(strip_fault(line, node)),
        Word::Array => words_fault(alloc, Word::Array, device, line, node),
    }
}

#[cycle(mappings)]
fn entry_fault(
    alloc: Global,
    word: KeyWord,
    device: bool,
    line: u32,
    key: &Text,
    node: &Node,
) -> Result<Option<Fault>, NoMemory>
    ensures { IfOk result (First (entry_demands word device line key.now (node_tree node.now) (opened_demands line (node_tree node.now)))) }
{
    match word {
        KeyWord::Command(command) => command_fault(alloc, command, device, line, node),
        KeyWord::Ignored => Ok(None),
        KeyWord::Unknown => Ok(fault(line, FaultKind::UnknownCommand)),
        KeyWord::Pattern => {
            let formed = pattern_fault(alloc, line, key)?;
            let opened = opened_fault(alloc, line, node)?;
            Ok(earlier(formed, opened))
        }
    }
}

/// The first fault in a mapping of commands and opened patterns.
#[cycle(mappings)]
pub fn mapping_fault(
    alloc: Global,
    device: bool,
    entries: &[(u32, Text, Node)],
) -> Result<Option<Fault>, NoMemory>
    ensures { IfOk result (First (mapping_demands device (entries_of (map entry_under entries.now)))) }
{
    let mut found = None;
    for entry in entries {
        let word = key_word(entry.1.as_str().as_bytes());
        let more = entry_fault(alloc, word, device, entry.0, &entry.1, &entry.2)?;
        found = earlier(found, more);
    }
    Ok(found)
}

#[cycle(mappings)]
fn opened_fault(alloc: Global, line: u32, node: &Node) -> Result<Option<Fault>, NoMemory>
    ensures { IfOk result (First (opened_demands line (node_tree node.now))) }
{
    match node {
        Node::Empty => Ok(None),
        Node::Scalar(_) => Ok(fault(line, FaultKind::BadValue)),
        Node::List(_) => Ok(fault(line, FaultKind::BadValue)),
        Node::Map(entries) => mapping_fault(alloc, false, entries.entries.as_slice()),
    }
}

/// The first fault of a patch.
pub fn patch_fault(alloc: Global, node: &Node) -> Result<Option<Fault>, NoMemory>
    ensures { IfOk result (First (patch_demands (node_tree node.now))) }
{
    match node {
        Node::Empty => Ok(None),
        Node::Scalar(_) => Ok(None),
        Node::List(_) => Ok(None),
        Node::Map(entries) => mapping_fault(alloc, true, entries.entries.as_slice()),
    }
}
