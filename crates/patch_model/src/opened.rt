ghost use Rattle.std.specs.Prelude.{◌≡◌, ◌∷◌, ◌++◌, [], IfOk, OnOk, map};
ghost use Rattle.glob_select.specs.Reading.{alternatives_of};
ghost use Rattle.glob_select.specs.Refusals.{IsPattern};
ghost use Rattle.yaml_block.specs.Nodes.{entry_under, node_tree};
ghost use Rattle.yaml_block.specs.Trees.{entries_of};
ghost use Rattle.patch_model.specs.Acts.{GrowsBy, opens};
ghost use Rattle.patch_form.specs.Unmet.{AllMet};
ghost use Rattle.patch_model.specs.Held.{opened_part};
ghost use Rattle.patch_form.specs.Mappings.{mapping_demands, opened_demands};
ghost use Rattle.patch_model.specs.Orders.{mapping_orders, opened_at, order, orders_below};

use crate::act::{Act, Commands, Patterns};
use crate::deed::{copied, put};
use crate::leaf::pattern_of;
use crate::own::own_commands;
use pac_base::{NoMemory, Text};
use patch_form::table::key_word;
use patch_form::word::KeyWord;
use std::alloc::Global;
use yaml_block::Node;

/// Adds the command that opens a pattern, and gives the parents of the commands within.
fn opening(
    alloc: Global,
    line: u32,
    key: &Text,
    parents: &Patterns,
    made: &mut Commands,
) -> Result<Patterns, NoMemory>
    requires spelled { IsPattern key.now }
    ensures inner { IfOk result (λ inner. inner ≡ parents.now ++ alternatives_of key.now ∷ []) }
    ensures grows { OnOk result (GrowsBy made.old made.new (order line parents.now (opens (alternatives_of key.now)))) }
{
    let pattern = pattern_of(alloc, key)?;
    let mut inner = copied(alloc, parents)?;
    inner.push(pattern.copy()?)?;
    put(alloc, line, Act::Open(pattern), parents, made)?;
    Ok(inner)
}

#[cycle(opened)]
fn opened_at(
    alloc: Global,
    word: KeyWord,
    line: u32,
    key: &Text,
    node: &Node,
    parents: &Patterns,
    made: &mut Commands,
) -> Result<(), NoMemory>
    requires met { AllMet (opened_part word line key.now (node_tree node.now)) }
    ensures { OnOk result (GrowsBy made.old made.new (opened_at word parents.now line key.now (orders_below (parents.now ++ alternatives_of key.now ∷ []) (node_tree node.now)))) }
{
    match word {
        KeyWord::Command(_) => Ok(()),
        KeyWord::Ignored => Ok(()),
        KeyWord::Unknown => Ok(()),
        KeyWord::Pattern => {
            let inner = opening(alloc, line, key, parents, made)?;
            commands_below(alloc, line, node, &inner, made)
        }
    }
}

/// Adds the commands of an opened mapping.
#[cycle(opened)]
fn commands_below(
    alloc: Global,
    line: u32,
    node: &Node,
    parents: &Patterns,
    made: &mut Commands,
) -> Result<(), NoMemory>
    requires met { AllMet (opened_demands line (node_tree node.now)) }
    ensures { OnOk result (GrowsBy made.old made.new (orders_below parents.now (node_tree node.now))) }
{
    match node {
        Node::Empty => Ok(()),
        Node::Scalar(_) => Ok(()),
        Node::List(_) => Ok(()),
        Node::Map(entries) => {
            mapping_commands(alloc, false, entries.entries.as_slice(), parents, made)
        }
    }
}

/// Adds the commands of a mapping, and behind them each opened pattern with the commands within.
#[cycle(opened)]
pub fn mapping_commands(
    alloc: Global,
    device: bool,
    entries: &[(u32, Text, Node)],
    parents: &Patterns,
    made: &mut Commands,
) -> Result<(), NoMemory>
    requires met { AllMet (mapping_demands device (entries_of (map entry_under entries.now))) }
    ensures { OnOk result (GrowsBy made.old made.new (mapping_orders device parents.now (entries_of (map entry_under entries.now)))) }
{
    own_commands(alloc, device, entries, parents, made)?;
    for entry in entries {
        let word = key_word(entry.1.as_str().as_bytes());
        opened_at(alloc, word, entry.0, &entry.1, &entry.2, parents, made)?;
    }
    Ok(())
}
