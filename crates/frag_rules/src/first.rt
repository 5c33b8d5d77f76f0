ghost use Rattle.std.specs.Prelude.{◌≡◌, ◌&&◌, IfOk, is_none, is_some, map, option_map};
ghost use Rattle.std.specs.List.{list_all};
ghost use Rattle.frag_sem.specs.AddressEnds.{all_tests};
ghost use Rattle.frag_sem.specs.CrateTyping.{first_failed};
ghost use Rattle.frag_sem.specs.Modules.{are_distinct_names, top_block};
ghost use Rattle.frag_tree.specs.Trees.{block_tree, crate_tree};
ghost use Rattle.frag_rules.specs.Bodies.{misfit};
ghost use Rattle.frag_rules.specs.Naming.{named_in};
ghost use Rattle.frag_rules.specs.Parts.{laid_in};
ghost use Rattle.frag_rules.specs.Rules.{block_test, blocks_keep, register_test, registers_keep, rule_kind, rule_test, tested};

use crate::block::broken_in_block;
use crate::named::{Named, by_name, first_again};
use crate::parts::{Listed, Parts, items_of_block, laid_out};
use crate::place::{behind, earlier};
use crate::range::out_of_range;
use crate::register::broken_in_register;
use crate::rule::{BlockRule, RegisterRule, Rule, all_rules};
use frag_tree::{Block, Crate, RegisterModule, Slot, Version};
use pac_base::NoMemory;
use std::alloc::Global;

/// The first rule that a crate breaks, and the first item of the text that breaks it, by how many items stand
/// before it.
#[derive(Clone, Copy, Debug)]
pub struct Broken {
    pub rule: Rule,
    pub item: usize,
}

/// The first item of all blocks that breaks the rule.
fn in_blocks(
    alloc: Global,
    rule: BlockRule,
    version: Version,
    blocks: &[Listed<&Block>],
) -> Result<Option<usize>, NoMemory>
    ensures { IfOk result (λ item. is_none item ≡ list_all (block_test rule version) (map (λ listed. block_tree listed.unit.now) blocks.now)) }
{
    let mut found = None;
    for at in 0..blocks.len() {
        let item = broken_in_block(alloc, rule, version, blocks[at].unit)?;
        found = earlier(found, behind(blocks[at].item, item));
    }
    Ok(found)
}

/// The first item of all register modules that breaks the rule.
fn in_registers(
    alloc: Global,
    rule: RegisterRule,
    version: Version,
    registers: &[Listed<&RegisterModule>],
) -> Result<Option<usize>, NoMemory>
    ensures { IfOk result (λ item. is_none item ≡ list_all (register_test rule version) (map (λ listed. listed.unit.now) registers.now)) }
{
    let mut found = None;
    for at in 0..registers.len() {
        let item = broken_in_register(alloc, rule, version, registers[at].unit)?;
        found = earlier(found, behind(registers[at].item, item));
    }
    Ok(found)
}

fn blocks_break(
    alloc: Global,
    rule: BlockRule,
    parts: &Parts<'_>,
) -> Result<Option<usize>, NoMemory>
    ensures { IfOk result (λ item. is_none item ≡ blocks_keep rule (laid_in parts.now)) }
{
    in_blocks(alloc, rule, parts.krate.version, parts.blocks.as_slice())
}

fn registers_break(
    alloc: Global,
    rule: RegisterRule,
    parts: &Parts<'_>,
) -> Result<Option<usize>, NoMemory>
    ensures { IfOk result (λ item. is_none item ≡ registers_keep rule (laid_in parts.now)) }
{
    in_registers(alloc, rule, parts.krate.version, parts.registers.as_slice())
}

/// The first item of blocks and register modules that breaks a rule on both.
fn both_break(
    alloc: Global,
    one: BlockRule,
    other: RegisterRule,
    parts: &Parts<'_>,
) -> Result<Option<usize>, NoMemory>
    ensures { IfOk result (λ item. is_none item ≡ (blocks_keep one (laid_in parts.now) && registers_keep other (laid_in parts.now))) }
{
    let block = blocks_break(alloc, one, parts)?;
    let register = registers_break(alloc, other, parts)?;
    Ok(earlier(block, register))
}

/// How many items stand before a block at the top.
fn items_before_top(krate: &Crate, index: usize) -> usize {
    let mut items = krate.slots.len();
    for block in krate.blocks.as_slice().iter().take(index) {
        items = items.saturating_add(items_of_block(block));
    }
    items
}

/// A block at the top as an item of the text.
fn top_item(krate: &Crate, top: Option<usize>) -> Option<usize>
    ensures { is_none result ≡ is_none top }
{
    match top {
        Some(top) => Some(items_before_top(krate, top)),
        None => None,
    }
}

/// The first item whose name another has that stands before it.
fn distinct_names(alloc: Global, parts: &Parts<'_>) -> Result<Option<usize>, NoMemory>
    ensures { IfOk result (λ item. is_none item ≡ rule_test Rule.DistinctNames (laid_in parts.now)) }
{
    let slot = first_again(alloc, parts.krate.slots.as_slice())?;
    let top = first_again(alloc, parts.krate.blocks.as_slice())?;
    let inner = both_break(
        alloc,
        BlockRule::DistinctNames,
        RegisterRule::DistinctNames,
        parts,
    )?;
    Ok(earlier(slot, earlier(top_item(parts.krate, top), inner)))
}

fn slot_without_module(tops: &Named<'_, &Block>, slots: &[Slot]) -> Option<usize>
    ensures { result ≡ misfit (λ slot. is_some (named_in tops.now slot.block)) slots.now }
{
    slots
        .iter()
        .position(|slot| !tops.get(slot.block.bytes()).is_some())
}

/// The first slot whose module isn't at the top.
fn slot_modules(alloc: Global, parts: &Parts<'_>) -> Result<Option<usize>, NoMemory>
    ensures { IfOk result (λ item. is_none item ≡ rule_test Rule.SlotModules (laid_in parts.now)) }
{
    let tops = by_name(alloc, parts.krate.blocks.as_slice())?;
    Ok(slot_without_module(&tops, parts.krate.slots.as_slice()))
}

/// The first item that breaks a rule.
#[tactic(auto, unfolding(crate::specs::Rules::rule_test))]
fn item_breaking(alloc: Global, rule: Rule, parts: &Parts<'_>) -> Result<Option<usize>, NoMemory>
    ensures { IfOk result (λ item. is_none item ≡ rule_test rule (laid_in parts.now)) }
{
    match rule {
        Rule::DistinctNames => distinct_names(alloc, parts),
        Rule::SlotModules => slot_modules(alloc, parts),
        Rule::ModulePaths => blocks_break(alloc, BlockRule::ModulePaths, parts),
        Rule::BodyFields => blocks_break(alloc, BlockRule::BodyFields, parts),
        Rule::BodyTypes => blocks_break(alloc, BlockRule::BodyTypes, parts),
        Rule::Counts => both_break(alloc, BlockRule::Counts, RegisterRule::Counts, parts),
        Rule::ConstantTypes => registers_break(alloc, RegisterRule::ConstantTypes, parts),
        Rule::ConstantValues => registers_break(alloc, RegisterRule::ConstantValues, parts),
        Rule::ReaderMarkers => registers_break(alloc, RegisterRule::ReaderMarkers, parts),
        Rule::ReaderPlaces => registers_break(alloc, RegisterRule::ReaderPlaces, parts),
        Rule::WriterMarkers => registers_break(alloc, RegisterRule::WriterMarkers, parts),
        Rule::WriterPlaces => registers_break(alloc, RegisterRule::WriterPlaces, parts),
        Rule::ValueTypes => registers_break(alloc, RegisterRule::ValueTypes, parts),
        Rule::ValueLiterals => registers_break(alloc, RegisterRule::ValueLiterals, parts),
        Rule::PreludeNames => both_break(
            alloc,
            BlockRule::PreludeNames,
            RegisterRule::PreludeNames,
            parts,
        ),
        Rule::Directions => registers_break(alloc, RegisterRule::Directions, parts),
        Rule::AddressRange => out_of_range(alloc, parts.krate),
    }
}

/// The first of the rules that a crate breaks.
fn first_of(alloc: Global, parts: &Parts<'_>, rules: &[Rule]) -> Result<Option<Broken>, NoMemory>
    ensures { IfOk result (λ found. option_map (λ broken. rule_kind broken.rule) found ≡ first_failed (map (tested (laid_in parts.now)) rules.now)) }
{
    let mut rest = rules;
    while let Some((rule, others)) = rest.split_first() {
        match item_breaking(alloc, *rule, parts)? {
            Some(item) => return Ok(Some(Broken { rule: *rule, item })),
            None => rest = others,
        }
    }
    Ok(None)
}

/// The first of all rules that a crate breaks, and the first item that breaks it. The kind of the fault
/// is that of the first test that fails anywhere in the crate; want of memory is the one other answer.
pub fn first_broken(alloc: Global, krate: &Crate) -> Result<Option<Broken>, NoMemory>
    ensures { IfOk result (λ found. option_map (λ broken. rule_kind broken.rule) found ≡ first_failed (all_tests (crate_tree krate.now))) }
{
    let parts = laid_out(alloc, krate)?;
    first_of(alloc, &parts, &all_rules())
}
