ghost use Rattle.std.specs.Prelude.{◌≡◌, [], ◌∷◌, IfOk, OnOk, map};
ghost use Rattle.frag_sem.specs.Modules.{blocks_in, registers_in};
ghost use Rattle.frag_tree.specs.Trees.{block_tree, crate_tree, in_line, module_tree};
ghost use Rattle.frag_rules.specs.Gathering.{blocks_at, registers_at};
ghost use Rattle.frag_rules.specs.Parts.{laid_in, laid_out, with_more};

use frag_tree::{Block, Crate, Module, RegisterModule, Values};
use pac_base::NoMemory;
use std::alloc::Global;

/// A module, and how many items of the text stand before it.
#[derive(Clone, Copy)]
pub(crate) struct Listed<T> {
    pub item: usize,
    pub unit: T,
}

/// A crate with its modules at any depth, each list in the order of the text.
#[derive(Drop)]
pub(crate) struct Parts<'a> {
    pub krate: &'a Crate,
    pub blocks: Vec<Listed<&'a Block>>,
    pub registers: Vec<Listed<&'a RegisterModule>>,
    pub items: usize,
}

/// How many calls a block of values has.
pub(crate) fn calls_in(values: &Values) -> usize {
    match values {
        Values::BitReading { calls, .. } => calls.len(),
        Values::FieldReading { calls, .. } => calls.len(),
        Values::BitWriting { calls, .. } => calls.len(),
        Values::FieldWriting { calls, .. } => calls.len(),
    }
}

/// How many items blocks of values are: each of them, and each of their calls.
pub(crate) fn items_of_values(values: &[Values]) -> usize {
    let mut items = 0usize;
    for block in values {
        items = items.saturating_add(1).saturating_add(calls_in(block));
    }
    items
}

/// How many items a register module is.
fn items_of(unit: &RegisterModule) -> usize {
    let readers = unit.readers.as_ref().map_or(0, |readers| readers.len());
    let writers = unit.writers.as_ref().map_or(0, |writers| writers.len());
    unit.markers
        .len()
        .saturating_add(readers)
        .saturating_add(writers)
        .saturating_add(items_of_values(unit.values.as_slice()))
        .saturating_add(1)
}

/// How many items a block module is without the modules inside it.
pub(crate) fn own_items(unit: &Block) -> usize {
    let own = unit.fields.len().saturating_add(unit.accessors.len());
    own.saturating_add(1)
}

impl<'a> Parts<'a> {
    /// Lists a register module behind the others.
    fn list_register(&mut self, unit: &'a RegisterModule) -> Result<(), NoMemory>
        ensures { OnOk result (laid_in self.new ≡ with_more (laid_in self.old) [] (unit.now ∷ [])) }
    {
        self.registers.push(Listed {
            item: self.items,
            unit,
        })?;
        self.items = self.items.saturating_add(items_of(unit));
        Ok(())
    }

    /// Lists a block module behind the others, without the modules inside it.
    fn list_block(&mut self, unit: &'a Block) -> Result<(), NoMemory>
        ensures { OnOk result (laid_in self.new ≡ with_more (laid_in self.old) (block_tree unit.now ∷ []) []) }
    {
        self.blocks.push(Listed {
            item: self.items,
            unit,
        })?;
        self.items = self.items.saturating_add(own_items(unit));
        Ok(())
    }
}

/// The modules of a crate at any depth.
pub(crate) fn laid_out(alloc: Global, krate: &Crate) -> Result<Parts<'_>, NoMemory>
    ensures { IfOk result (λ parts. laid_in parts ≡ laid_out (crate_tree krate.now)) }
{
    let mut parts = Parts {
        krate,
        blocks: Vec::new(alloc),
        registers: Vec::new(alloc),
        items: krate.slots.len(),
    };
    let mut rest = krate.blocks.as_slice();
    while let Some((first, others)) = rest.split_first() {
        gather_block(first, &mut parts)?;
        rest = others;
    }
    Ok(parts)
}

/// Lists a block module, and then all modules inside it.
#[cycle(gather)]
pub(crate) fn gather_block<'a>(block: &'a Block, parts: &mut Parts<'a>) -> Result<(), NoMemory>
    ensures { OnOk result (laid_in parts.new ≡ with_more (laid_in parts.old) (block_tree block.now ∷ blocks_in (block_tree block.now).inside) (registers_in (block_tree block.now).inside)) }
{
    parts.list_block(block)?;
    gather_modules(&block.modules, parts)
}

/// Lists modules, each with all modules inside it.
#[cycle(gather)]
pub(crate) fn gather_modules<'a>(
    modules: &'a [Module],
    parts: &mut Parts<'a>,
) -> Result<(), NoMemory>
    ensures { OnOk result (laid_in parts.new ≡ with_more (laid_in parts.old) (blocks_in (in_line (map module_tree modules.now))) (registers_in (in_line (map module_tree modules.now)))) }
{
    for module in modules {
        gather_module(module, parts)?;
    }
    Ok(())
}

#[cycle(gather)]
fn gather_module<'a>(module: &'a Module, parts: &mut Parts<'a>) -> Result<(), NoMemory>
    ensures { OnOk result (laid_in parts.new ≡ with_more (laid_in parts.old) (blocks_at (module_tree module.now)) (registers_at (module_tree module.now))) }
{
    match module {
        Module::Block(block) => gather_block(block, parts),
        Module::Register(unit) => parts.list_register(unit),
    }
}

/// How many items the modules before one of a parent are, with all that is inside them.
pub(crate) fn items_before(modules: &[Module], index: usize) -> usize {
    let mut items = 0usize;
    for module in modules.iter().take(index) {
        items = items.saturating_add(items_at(module));
    }
    items
}

/// How many items a module is, with all that is inside it.
fn items_at(module: &Module) -> usize {
    match module {
        Module::Register(unit) => items_of(unit),
        Module::Block(block) => {
            let mut items = own_items(block);
            for inner in block.modules.as_slice() {
                items = items.saturating_add(items_at(inner));
            }
            items
        }
    }
}

/// How many items a block module is, with all that is inside it.
pub(crate) fn items_of_block(block: &Block) -> usize {
    own_items(block).saturating_add(items_before(block.modules.as_slice(), block.modules.len()))
}
