ghost use Rattle.std.specs.Prelude.{◌≡◌, [], ◌∷◌, ◌++◌, map, IfOk, MatchOption};
ghost use Rattle.yaml_block.specs.Building.{below, items_at, entries_at, built_behind, built_in, built_of, tree_in, with_entry, with_item, with_line};
ghost use Rattle.yaml_block.specs.Meanings.{value_tree};
ghost use Rattle.yaml_block.specs.Nodes.{entries_under, entry_under, item_under, items_under, node_tree};
ghost use Rattle.yaml_block.specs.Trees.{scalar};

use crate::content::Content;
use crate::line::Line;
use crate::node::{Entries, Items, Node};
use crate::value::Value;
use pac_base::{NoMemory, Text};
use std::alloc::Global;

/// Items or entries at one indent, the last one first.
#[derive(Drop)]
pub enum Run {
    /// Items of a list.
    Items(usize, Items),
    /// Entries of a mapping.
    Entries(usize, Entries),
}

fn items_in(alloc: Global, line: u32, texts: &[Text]) -> Result<Items, NoMemory>
    ensures { IfOk result (λ made. items_under made ≡ map (λ text. (line, scalar text)) texts.now) }
{
    let mut items = Items::new(alloc);
    for text in texts {
        items.push((line, Node::Scalar(text.copy(alloc)?)))?;
    }
    Ok(items)
}

fn entries_in(alloc: Global, line: u32, pairs: &[(Text, Text)]) -> Result<Entries, NoMemory>
    ensures { IfOk result (λ made. entries_under made ≡ map (λ pair. (line, pair.0, scalar pair.1)) pairs.now) }
{
    let mut entries = Entries::new(alloc);
    for pair in pairs {
        let key = pair.0.copy(alloc)?;
        entries.push((line, key, Node::Scalar(pair.1.copy(alloc)?)))?;
    }
    Ok(entries)
}

/// What a value on a line means.
#[tactic(auto, using(crate::proofs::Nodes::node_trees))]
fn node_of(alloc: Global, line: u32, value: &Value) -> Result<Node, NoMemory>
    ensures { IfOk result (λ node. node_tree node ≡ value_tree line value.now) }
{
    match value {
        Value::Scalar(text) => Ok(Node::Scalar(text.copy(alloc)?)),
        Value::Sequence(texts) => Ok(Node::List(items_in(alloc, line, texts.as_slice())?)),
        Value::Mapping(pairs) => Ok(Node::Map(entries_in(alloc, line, pairs.as_slice())?)),
    }
}

/// The first run, taken off.
fn first_run(runs: &mut Vec<Run>) -> Option<Run>
    ensures { MatchOption result
        ((built_in runs.old.items ≡ []) × (built_in runs.new.items ≡ []))
        (λ run. built_in runs.old.items ≡ built_of run ∷ built_in runs.new.items) }
{
    match runs.pop() {
        Some(run) => Some(run),
        None => None,
    }
}

/// The run in front of the others.
fn put(runs: &mut Vec<Run>, run: Run) -> Result<(), NoMemory>
    ensures { IfOk result (λ done. built_in runs.new.items ≡ built_of run ∷ built_in runs.old.items) }
{
    runs.push(run)?;
    Ok(())
}

fn one_item(alloc: Global, indent: usize, item: (u32, Node)) -> Result<Run, NoMemory>
    ensures { IfOk result (λ run. built_of run ≡ items_at indent (item_under item ∷ [])) }
{
    let mut items = Items::new(alloc);
    items.push(item)?;
    Ok(Run::Items(indent, items))
}

fn one_entry(alloc: Global, indent: usize, entry: (u32, Text, Node)) -> Result<Run, NoMemory>
    ensures { IfOk result (λ run. built_of run ≡ entries_at indent (entry_under entry ∷ [])) }
{
    let mut entries = Entries::new(alloc);
    entries.push(entry)?;
    Ok(Run::Entries(indent, entries))
}

/// The item joins the run of items at its indent, or begins one.
#[tactic(auto, unfolding(crate::specs::Building::with_item))]
fn put_item(
    alloc: Global,
    runs: &mut Vec<Run>,
    indent: usize,
    item: (u32, Node),
) -> Result<(), NoMemory>
    ensures { IfOk result (λ done. built_in runs.new.items ≡ with_item indent (item_under item) (built_in runs.old.items)) }
{
    match first_run(runs) {
        None => put(runs, one_item(alloc, indent, item)?),
        Some(Run::Items(other, mut items)) if indent == other => {
            items.push(item)?;
            put(runs, Run::Items(indent, items))
        }
        Some(run) => {
            put(runs, run)?;
            put(runs, one_item(alloc, indent, item)?)
        }
    }
}

/// The entry joins the run of entries at its indent, or begins one.
#[tactic(auto, unfolding(crate::specs::Building::with_entry))]
fn put_entry(
    alloc: Global,
    runs: &mut Vec<Run>,
    indent: usize,
    entry: (u32, Text, Node),
) -> Result<(), NoMemory>
    ensures { IfOk result (λ done. built_in runs.new.items ≡ with_entry indent (entry_under entry) (built_in runs.old.items)) }
{
    match first_run(runs) {
        None => put(runs, one_entry(alloc, indent, entry)?),
        Some(Run::Entries(other, mut entries)) if indent == other => {
            entries.push(entry)?;
            put(runs, Run::Entries(indent, entries))
        }
        Some(run) => {
            put(runs, run)?;
            put(runs, one_entry(alloc, indent, entry)?)
        }
    }
}

/// What stands behind a key without a value, taken off the runs.
#[tactic(auto, using(crate::proofs::Nodes::node_trees), unfolding(crate::specs::Building::below))]
fn take_below(runs: &mut Vec<Run>, indent: usize) -> Result<Node, NoMemory>
    ensures { IfOk result (λ node. (node_tree node, built_in runs.new.items) ≡ below indent (built_in runs.old.items)) }
{
    match first_run(runs) {
        None => Ok(Node::Empty),
        Some(Run::Items(other, items)) if indent <= other => Ok(Node::List(items.turned())),
        Some(Run::Entries(other, entries)) if indent < other => Ok(Node::Map(entries.turned())),
        Some(run) => {
            put(runs, run)?;
            Ok(Node::Empty)
        }
    }
}

#[tactic(auto, unfolding(crate::specs::Building::with_line))]
fn put_line(alloc: Global, runs: &mut Vec<Run>, line: &Line) -> Result<(), NoMemory>
    ensures { IfOk result (λ done. built_in runs.new.items ≡ with_line line.now (built_in runs.old.items)) }
{
    match &line.content {
        Content::Item(value) => {
            let node = node_of(alloc, line.number, value)?;
            put_item(alloc, runs, line.indent, (line.number, node))
        }
        Content::Key(key) => {
            let key = key.copy(alloc)?;
            let node = take_below(runs, line.indent)?;
            put_entry(alloc, runs, line.indent, (line.number, key, node))
        }
        Content::Entry(key, value) => {
            let key = key.copy(alloc)?;
            let node = node_of(alloc, line.number, value)?;
            put_entry(alloc, runs, line.indent, (line.number, key, node))
        }
    }
}

/// The node of runs that are one mapping or nothing.
#[tactic(auto, using(crate::proofs::Nodes::node_trees))]
fn node_in(runs: &mut Vec<Run>) -> Node
    ensures { node_tree result ≡ tree_in (built_in runs.old.items) }
{
    match first_run(runs) {
        None => Node::Empty,
        Some(Run::Items(_, _)) => Node::Empty,
        Some(Run::Entries(_, entries)) => Node::Map(entries.turned()),
    }
}

/// The node of lines that fit together, built from the last line to the first.
pub fn built(alloc: Global, lines: &[Line]) -> Result<Node, NoMemory>
    ensures { IfOk result (λ node. node_tree node ≡ tree_in (built_behind lines.now [])) }
{
    let mut runs = Vec::new(alloc);
    let mut rest = lines;
    'lines: while let Some((line, before)) = rest.split_last() {
        put_line(alloc, &mut runs, line)?;
        rest = before;
    }
    Ok(node_in(&mut runs))
}
