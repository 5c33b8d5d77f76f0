ghost use Rattle.std.specs.Prelude.{◌≡◌, OnOk, map};
ghost use Rattle.yaml_block.specs.Nodes.{entry_under, node_tree};
ghost use Rattle.yaml_block.specs.Trees.{entries_of};
ghost use Rattle.patch_model.specs.Acts.{GrowsBy};
ghost use Rattle.patch_form.specs.Unmet.{AllMet};
ghost use Rattle.patch_model.specs.Held.{command_part};
ghost use Rattle.patch_form.specs.Mappings.{mapping_demands};
ghost use Rattle.patch_model.specs.Orders.{is_word, later_orders, orders_at, orders_of, own_orders, place};

use crate::act::{Commands, Patterns};
use crate::listed::word_commands;
use pac_base::NoMemory;
use patch_form::place::Entry;
use patch_form::table::key_word;
use patch_form::word::{KeyWord, Word};
use std::alloc::Global;
use yaml_block::Node;

/// The place of a command among those of one mapping.
fn place(word: Word) -> u8
    ensures { result ≡ place word }
{
    match word {
        Word::Delete => 0,
        Word::Copy => 1,
        Word::Modify => 2,
        Word::Add => 3,
        Word::Strip => 4,
        Word::Array => 5,
    }
}

fn is_word(word: Word, other: Word) -> bool
    ensures { result ≡ is_word word other }
{
    place(word) == place(other)
}

/// Adds the commands of an entry, where its key is the wanted command.
fn commands_at(
    alloc: Global,
    wanted: Word,
    found: KeyWord,
    device: bool,
    line: u32,
    node: &Node,
    parents: &Patterns,
    made: &mut Commands,
) -> Result<(), NoMemory>
    requires met { AllMet (command_part found device line (node_tree node.now)) }
    ensures { OnOk result (GrowsBy made.old made.new (orders_at wanted found device parents.now line (node_tree node.now))) }
{
    match found {
        KeyWord::Command(word) => {
            if is_word(wanted, word) {
                word_commands(alloc, word, device, line, node, parents, made)
            } else {
                Ok(())
            }
        }
        KeyWord::Ignored => Ok(()),
        KeyWord::Unknown => Ok(()),
        KeyWord::Pattern => Ok(()),
    }
}

fn commands_of(
    alloc: Global,
    wanted: Word,
    device: bool,
    entries: &[Entry],
    parents: &Patterns,
    made: &mut Commands,
) -> Result<(), NoMemory>
    requires met { AllMet (mapping_demands device (entries_of (map entry_under entries.now))) }
    ensures { OnOk result (GrowsBy made.old made.new (orders_of wanted device parents.now (entries_of (map entry_under entries.now)))) }
{
    for entry in entries {
        let found = key_word(entry.1.as_str().as_bytes());
        commands_at(
            alloc, wanted, found, device, entry.0, &entry.2, parents, made,
        )?;
    }
    Ok(())
}

/// Adds the commands of a mapping that come behind those that leave elements out, copy or change them.
fn later_commands(
    alloc: Global,
    device: bool,
    entries: &[Entry],
    parents: &Patterns,
    made: &mut Commands,
) -> Result<(), NoMemory>
    requires met { AllMet (mapping_demands device (entries_of (map entry_under entries.now))) }
    ensures { OnOk result (GrowsBy made.old made.new (later_orders device parents.now (entries_of (map entry_under entries.now)))) }
{
    commands_of(alloc, Word::Add, device, entries, parents, made)?;
    commands_of(alloc, Word::Strip, device, entries, parents, made)?;
    commands_of(alloc, Word::Array, device, entries, parents, made)
}

/// Adds the commands of a mapping, without its opened patterns.
pub fn own_commands(
    alloc: Global,
    device: bool,
    entries: &[Entry],
    parents: &Patterns,
    made: &mut Commands,
) -> Result<(), NoMemory>
    requires met { AllMet (mapping_demands device (entries_of (map entry_under entries.now))) }
    ensures { OnOk result (GrowsBy made.old made.new (own_orders device parents.now (entries_of (map entry_under entries.now)))) }
{
    commands_of(alloc, Word::Delete, device, entries, parents, made)?;
    commands_of(alloc, Word::Copy, device, entries, parents, made)?;
    commands_of(alloc, Word::Modify, device, entries, parents, made)?;
    later_commands(alloc, device, entries, parents, made)
}
