ghost use Rattle.std.specs.Prelude.{◌≡◌, IfOk, map};
ghost use Rattle.glob_select.specs.Reading.{alternatives_of};
ghost use Rattle.glob_select.specs.Refusals.{IsPattern};
ghost use Rattle.pac_base.specs.Names.{IsName};
ghost use Rattle.yaml_block.specs.Nodes.{entry_under, node_tree};
ghost use Rattle.yaml_block.specs.Trees.{entries_of};
ghost use Rattle.patch_form.specs.Forms.{trimmed};
ghost use Rattle.patch_form.specs.Parts.{entries_in};

use glob_select::{Pattern, PatternFault};
use pac_base::{Name, NameFault, NoMemory, Text, TextFault};
use patch_form::form::trimmed;
use patch_form::place::Entry;
use std::alloc::Global;
use yaml_block::Node;

/// The pattern that a text spells, which spells one.
pub fn pattern_of(alloc: Global, text: &Text) -> Result<Pattern, NoMemory>
    requires spelled { IsPattern text.now }
    ensures { IfOk result (λ pattern. pattern ≡ alternatives_of text.now) }
{
    match Pattern::new(alloc, text.as_str().as_bytes()) {
        Ok(pattern) => Ok(pattern),
        Err(PatternFault::BadPattern { .. }) => unreachable!(),
        Err(PatternFault::Memory) => Err(NoMemory),
    }
}

/// The name that a text is.
pub fn name_of(alloc: Global, text: &[u8]) -> Result<Name, NoMemory>
    requires formed { IsName text.now }
    ensures { IfOk result (λ name. name ≡ text.now) }
{
    match Name::new(alloc, text) {
        Ok(name) => Ok(name),
        Err(NameFault::NotAName) => unreachable!(),
        Err(NameFault::Memory) => Err(NoMemory),
    }
}

/// The text without the white space at its two ends.
pub fn trimmed_text(alloc: Global, text: &Text) -> Result<Text, NoMemory>
    ensures { IfOk result (λ found. found ≡ trimmed text.now) }
{
    match Text::new(alloc, trimmed(text.as_str().as_bytes())) {
        Ok(text) => Ok(text),
        Err(TextFault::NotUtf8) => unreachable!(),
        Err(TextFault::Memory) => Err(NoMemory),
    }
}

/// The entries of a mapping; any other value has none.
pub fn entries_in(node: &Node) -> &[Entry]
    ensures { entries_of (map entry_under result.now) ≡ entries_in (node_tree node.now) }
{
    match node {
        Node::Empty => &[],
        Node::Scalar(_) => &[],
        Node::List(_) => &[],
        Node::Map(entries) => entries.entries.as_slice(),
    }
}
