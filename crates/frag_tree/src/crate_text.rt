ghost use Rattle.std.specs.Prelude.{◌≡◌, ◌+◌, ◌++◌, OnOk, map};
ghost use Rattle.std.specs.List.{flat_map};
ghost use Rattle.frag_words.specs.Lines.{line, line_text, lines_text};
ghost use Rattle.pac_io.specs.Writing.{Writes, WritesUpTo, SinkCause};
ghost use Rattle.frag_tree.specs.Blocks.{block_tree_lines, module_lines, module_opening, modules_lines, opening_lines};
ghost use Rattle.frag_tree.specs.Crates.{head_text, printed, slot_line, slots_lines, top_lines, top_text, version_lines};
ghost use Rattle.frag_tree.specs.Trees.{block_tree, crate_tree, in_line, module_tree};

use crate::block::{Block, Module};
use crate::block_text::{push_accessors, push_struct};
use crate::krate::{Crate, Slot, Version};
use crate::line::{OneLine, Part, deeper, push_each, push_fixed, push_line};
use crate::phrase::Phrase;
use crate::register_text::push_register;
use pac_base::NoMemory;
use pac_io::{Page, Sink, SinkFault};
use std::alloc::Global;

/// Writes the printed form of a crate, after the templates of the crate text.
#[tactic(auto, unfolding(crate::specs::Trees::crate_tree))]
pub fn print_crate<S: Sink>(alloc: Global, krate: &Crate, sink: &mut S) -> Result<(), SinkFault>
    ensures growth { Writes result (S.written sink.old) (S.written sink.new) (printed (crate_tree krate.now)) }
    ensures cause { SinkCause result (S.faults sink.old) (S.faults sink.new) }
{
    let mut page = Page::new(alloc);
    push_version(&mut page, krate.version)?;
    push_slots(&mut page, krate.slots.as_slice())?;
    print_blocks(&krate.blocks, &mut page, sink)?;
    page.finish(sink)
}

/// Writes the head of a printed crate: its version, the prelude and the slots. The blocks come behind it.
pub fn print_head<S: Sink>(
    alloc: Global,
    version: Version,
    slots: &[Slot],
    sink: &mut S,
) -> Result<(), SinkFault>
    ensures growth { Writes result (S.written sink.old) (S.written sink.new) (head_text version slots.now) }
    ensures cause { SinkCause result (S.faults sink.old) (S.faults sink.new) }
{
    let mut page = Page::new(alloc);
    push_version(&mut page, version)?;
    push_slots(&mut page, slots)?;
    page.finish(sink)
}

/// Writes a block module as it stands at the top of a printed crate, behind an empty line.
pub fn print_top_block<S: Sink>(alloc: Global, block: &Block, sink: &mut S) -> Result<(), SinkFault>
    ensures growth { Writes result (S.written sink.old) (S.written sink.new) (top_text (block_tree block.now)) }
    ensures cause { SinkCause result (S.faults sink.old) (S.faults sink.new) }
{
    let mut page = Page::new(alloc);
    print_top(block, &mut page, sink)?;
    page.finish(sink)
}

/// Appends the line of the version, where it has one.
fn push_version(page: &mut Page, version: Version) -> Result<(), NoMemory>
    ensures { OnOk result (page.new ≡ page.old ++ lines_text (version_lines version)) }
{
    match version {
        Version::One => Ok(()),
        Version::Two => push_line(page, 0, &[Part::Text(Phrase::VersionTwo)]),
    }
}

/// Appends the prelude and the slots.
fn push_slots(page: &mut Page, slots: &[Slot]) -> Result<(), NoMemory>
    ensures { OnOk result (page.new ≡ page.old ++ lines_text (slots_lines slots.now)) }
{
    push_line(page, 0, &[Part::Text(Phrase::UsePrelude)])?;
    push_line(page, 0, &[])?;
    push_line(page, 0, &[Part::Text(Phrase::OpensPeripherals)])?;
    push_each(page, 1, slots)?;
    push_line(page, 0, &[Part::Text(Phrase::Closer)])
}

impl OneLine for Slot {
    ghost line_at = { slot_line };

    fn push_onto(&self, page: &mut Page, depth: usize) -> Result<(), NoMemory> {
        push_line(
            page,
            depth,
            &[
                Part::Text(Phrase::Pub),
                Part::Name(&self.name),
                Part::Text(Phrase::OpensPeriph),
                Part::Name(&self.block),
                Part::Text(Phrase::BlockThenNext),
                Part::Hexadecimal(self.address),
                Part::Text(Phrase::ClosesSlot),
            ],
        )
    }
}

/// Prints the block modules at the top, each behind an empty line.
fn print_blocks<S: Sink>(blocks: &[Block], page: &mut Page, sink: &mut S) -> Result<(), SinkFault>
    ensures growth { WritesUpTo result (S.written sink.old) (S.written sink.new) (page.old ++ lines_text (flat_map top_lines (map block_tree blocks.now))) page.new }
    ensures cause { SinkCause result (S.faults sink.old) (S.faults sink.new) }
{
    for block in blocks {
        print_top(block, page, sink)?;
    }
    Ok(())
}

fn print_top<S: Sink>(block: &Block, page: &mut Page, sink: &mut S) -> Result<(), SinkFault>
    ensures growth { WritesUpTo result (S.written sink.old) (S.written sink.new) (page.old ++ lines_text (top_lines (block_tree block.now))) page.new }
    ensures cause { SinkCause result (S.faults sink.old) (S.faults sink.new) }
{
    push_line(page, 0, &[])?;
    print_block(block, 0, page, sink)
}

#[cycle(modules)]
fn print_block<S: Sink>(
    block: &Block,
    depth: usize,
    page: &mut Page,
    sink: &mut S,
) -> Result<(), SinkFault>
    ensures growth { WritesUpTo result (S.written sink.old) (S.written sink.new) (page.old ++ lines_text (block_tree_lines depth (block_tree block.now))) page.new }
    ensures cause { SinkCause result (S.faults sink.old) (S.faults sink.new) }
{
    push_opening(block, depth, page)?;
    print_modules(&block.modules, deeper(depth)?, page, sink)?;
    push_line(page, depth, &[Part::Text(Phrase::Closer)])?;
    page.turn(sink)
}

#[cycle(modules)]
fn print_modules<S: Sink>(
    modules: &[Module],
    depth: usize,
    page: &mut Page,
    sink: &mut S,
) -> Result<(), SinkFault>
    ensures growth { WritesUpTo result (S.written sink.old) (S.written sink.new) (page.old ++ lines_text (modules_lines depth (in_line (map module_tree modules.now)))) page.new }
    ensures cause { SinkCause result (S.faults sink.old) (S.faults sink.new) }
{
    for part in modules {
        print_module(part, depth, page, sink)?;
    }
    Ok(())
}

#[cycle(modules)]
fn print_module<S: Sink>(
    part: &Module,
    depth: usize,
    page: &mut Page,
    sink: &mut S,
) -> Result<(), SinkFault>
    ensures growth { WritesUpTo result (S.written sink.old) (S.written sink.new) (page.old ++ lines_text (module_lines depth (module_tree part.now))) page.new }
    ensures cause { SinkCause result (S.faults sink.old) (S.faults sink.new) }
{
    match part {
        Module::Block(block) => print_block(block, depth, page, sink),
        Module::Register(register) => {
            push_register(page, depth, register)?;
            page.turn(sink)
        }
    }
}

/// Appends the lines of a block module that stand before the modules inside it.
fn push_opening(block: &Block, depth: usize, page: &mut Page) -> Result<(), NoMemory>
    ensures { OnOk result (page.new ≡ page.old ++ lines_text (opening_lines depth (block_tree block.now).head)) }
{
    push_line(
        page,
        depth,
        &[
            Part::Text(Phrase::PubMod),
            Part::Name(&block.name),
            Part::Text(Phrase::OpensModule),
        ],
    )?;
    let inner = deeper(depth)?;
    push_fixed(page, inner, Phrase::UsePrelude)?;
    push_struct(page, inner, block.fields.as_slice())?;
    push_accessors(page, inner, block.accessors.as_slice())
}
