ghost use Rattle.std.specs.Prelude.{◌≡◌, OnOk, map};
ghost use Rattle.yaml_block.specs.Nodes.{entry_under, item_under, node_tree};
ghost use Rattle.yaml_block.specs.Trees.{entries_of, items_of};
ghost use Rattle.patch_model.specs.Acts.{GrowsBy};
ghost use Rattle.patch_form.specs.Unmet.{AllMet};
ghost use Rattle.patch_model.specs.Held.{EachDeed, item_demands, text_demands, text_word, texts_demands};
ghost use Rattle.patch_form.specs.Mappings.{command_demands};
ghost use Rattle.patch_form.specs.Parts.{entries_in};
ghost use Rattle.patch_model.specs.Orders.{entries_orders, entry_orders, item_orders, text_deed, text_order, texts_orders, word_orders};

use crate::act::{Commands, Patterns};
use crate::deed::{entry_act, put, text_act};
use crate::leaf::entries_in;
use pac_base::NoMemory;
use patch_form::place::{Entry, scalar};
use patch_form::word::{TextWord, Word};
use std::alloc::Global;
use yaml_block::Node;

fn text_command(
    alloc: Global,
    word: TextWord,
    line: u32,
    node: &Node,
    parents: &Patterns,
    made: &mut Commands,
) -> Result<(), NoMemory>
    requires met { AllMet (text_demands word line (node_tree node.now)) }
    ensures { OnOk result (GrowsBy made.old made.new (text_order (text_deed word) parents.now line (node_tree node.now))) }
{
    match scalar(node) {
        None => Ok(()),
        Some(text) => {
            let act = text_act(alloc, word, text)?;
            put(alloc, line, act, parents, made)
        }
    }
}

fn item_commands(
    alloc: Global,
    word: TextWord,
    items: &[(u32, Node)],
    parents: &Patterns,
    made: &mut Commands,
) -> Result<(), NoMemory>
    requires met { AllMet (item_demands word (items_of (map item_under items.now))) }
    ensures { OnOk result (GrowsBy made.old made.new (item_orders (text_deed word) parents.now (items_of (map item_under items.now)))) }
{
    for item in items {
        text_command(alloc, word, item.0, &item.1, parents, made)?;
    }
    Ok(())
}

/// Adds the commands that the value of `_delete` or `_strip` gives.
fn text_commands(
    alloc: Global,
    word: TextWord,
    line: u32,
    node: &Node,
    parents: &Patterns,
    made: &mut Commands,
) -> Result<(), NoMemory>
    requires met { AllMet (texts_demands word line (node_tree node.now)) }
    ensures { OnOk result (GrowsBy made.old made.new (texts_orders (text_deed word) parents.now line (node_tree node.now))) }
{
    match node {
        Node::Empty => Ok(()),
        Node::Scalar(text) => {
            let act = text_act(alloc, word, text)?;
            put(alloc, line, act, parents, made)
        }
        Node::List(items) => item_commands(alloc, word, items.items.as_slice(), parents, made),
        Node::Map(_) => Ok(()),
    }
}

fn entry_commands(
    alloc: Global,
    word: Word,
    device: bool,
    entries: &[Entry],
    parents: &Patterns,
    made: &mut Commands,
) -> Result<(), NoMemory>
    requires met { EachDeed word device (entries_of (map entry_under entries.now)) }
    ensures { OnOk result (GrowsBy made.old made.new (entry_orders word device parents.now (entries_of (map entry_under entries.now)))) }
{
    for entry in entries {
        let act = entry_act(alloc, word, device, entry)?;
        put(alloc, entry.0, act, parents, made)?;
    }
    Ok(())
}

/// Adds the commands that the entries of the value of a command's key give.
fn mapped_commands(
    alloc: Global,
    word: Word,
    device: bool,
    node: &Node,
    parents: &Patterns,
    made: &mut Commands,
) -> Result<(), NoMemory>
    requires met { EachDeed word device (entries_in (node_tree node.now)) }
    ensures { OnOk result (GrowsBy made.old made.new (entries_orders word device parents.now (node_tree node.now))) }
{
    entry_commands(alloc, word, device, entries_in(node), parents, made)
}

/// The command as one of which a text is one; none where a mapping gives what is done.
fn text_word(word: Word) -> Option<TextWord>
    ensures { result ≡ text_word word }
{
    match word {
        Word::Delete => Some(TextWord::Delete),
        Word::Copy => None,
        Word::Modify => None,
        Word::Add => None,
        Word::Strip => Some(TextWord::Strip),
        Word::Array => None,
    }
}

/// Adds the commands that the value of a command's key gives.
pub fn word_commands(
    alloc: Global,
    word: Word,
    device: bool,
    line: u32,
    node: &Node,
    parents: &Patterns,
    made: &mut Commands,
) -> Result<(), NoMemory>
    requires met { AllMet (command_demands word device line (node_tree node.now)) }
    ensures { OnOk result (GrowsBy made.old made.new (word_orders word device parents.now line (node_tree node.now))) }
{
    match text_word(word) {
        Some(text) => text_commands(alloc, text, line, node, parents, made),
        None => mapped_commands(alloc, word, device, node, parents, made),
    }
}
