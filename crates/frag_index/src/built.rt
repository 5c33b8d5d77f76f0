ghost use Rattle.std.specs.Prelude.{◌≡◌, IfOk, List, map};
ghost use Rattle.frag_tree.specs.Trees.{block_tree, in_line, module_tree, one_block, one_register};
ghost use Rattle.frag_index.specs.declared.site.Site.{Site as SiteRow};
ghost use Rattle.frag_index.specs.Sites.{Adds, AddsAll, AddsTop, IsSiteOf, TopsFit, WithinFits};

use crate::site::{Added, Inner, Site, Within};
use crate::unit::Unit;
use frag_rules::{Named, by_name, layout_of, measure_laid, measure_register};
use frag_tree::{Access, Block, Module, RegisterModule, StructField};
use pac_base::NoMemory;
use std::alloc::Global;

/// The fields of the struct of a block.
fn fields_of(block: &Block) -> &[StructField]
    ensures { result.now ≡ (block_tree block.now).head.fields }
{
    block.fields.as_slice()
}

/// The accessors of a block.
fn accessors_of(block: &Block) -> &[Access]
    ensures { result.now ≡ (block_tree block.now).head.accessors }
{
    block.accessors.as_slice()
}

/// A block with what is looked up in it, given its modules.
fn site_of<'a>(alloc: Global, block: &'a Block, within: Within<'a>) -> Result<Site<'a>, NoMemory>
    ensures { IfOk result (λ site. (sites : List SiteRow) → WithinFits sites within.entry (block_tree block.now).inside → IsSiteOf sites block.now site) }
{
    let accessors = by_name(alloc, accessors_of(block))?;
    let fields = by_name(alloc, fields_of(block))?;
    let layout = layout_of(alloc, &within.measures, fields_of(block))?;
    Ok(Site {
        block,
        accessors,
        fields,
        within,
        layout,
    })
}

/// The module of a register, with what it takes. It has no site.
fn register_added<'a>(alloc: Global, register: &'a RegisterModule) -> Result<Added<'a>, NoMemory>
    ensures { IfOk result (λ added. (sites : List SiteRow) → Adds sites sites (one_register register.now) added) }
{
    let unit = Unit::new(alloc, register)?;
    Ok(Added {
        unit: Inner::Register(unit),
        measure: measure_register(register),
    })
}

/// Adds the sites of a block and of all blocks in it, its own last.
#[cycle(add)]
fn add_block<'a>(
    block: &'a Block,
    alloc: Global,
    sites: &mut Vec<Site<'a>>,
) -> Result<Added<'a>, NoMemory>
    ensures { IfOk result (λ added. Adds sites.old.items sites.new.items (one_block (block_tree block.now)) added) }
{
    let within = add_modules(&block.modules, alloc, sites)?;
    let site = site_of(alloc, block, within)?;
    let measure = measure_laid(block, &site.within.measures, &site.fields, &site.layout);
    let number = sites.len();
    sites.push(site)?;
    Ok(Added {
        unit: Inner::Block(block, number),
        measure,
    })
}

/// Adds the sites of all blocks of one parent.
#[cycle(add)]
fn add_modules<'a>(
    modules: &'a [Module],
    alloc: Global,
    sites: &mut Vec<Site<'a>>,
) -> Result<Within<'a>, NoMemory>
    ensures { IfOk result (λ within. AddsAll sites.old.items sites.new.items (in_line (map module_tree modules.now)) within) }
{
    let mut within = Within::new(alloc);
    for unit in modules {
        let added = add_module(unit, alloc, sites)?;
        within.keep(unit, added)?;
    }
    Ok(within)
}

#[cycle(add)]
fn add_module<'a>(
    unit: &'a Module,
    alloc: Global,
    sites: &mut Vec<Site<'a>>,
) -> Result<Added<'a>, NoMemory>
    ensures { IfOk result (λ added. Adds sites.old.items sites.new.items (module_tree unit.now) added) }
{
    match unit {
        Module::Block(block) => add_block(block, alloc, sites),
        Module::Register(register) => register_added(alloc, register),
    }
}

/// The blocks at the top, by name, with the sites of all blocks.
#[derive(Drop)]
pub struct Tops<'a> {
    pub sites: Vec<Site<'a>>,
    pub named: Named<'a, Inner<'a>>,
}

impl<'a> Tops<'a> {
    /// Adds a block at the top.
    fn add(&mut self, alloc: Global, block: &'a Block) -> Result<(), NoMemory>
        ensures { IfOk result (λ _. AddsTop self.old (block_tree block.now) self.new) }
    {
        let added = add_block(block, alloc, &mut self.sites)?;
        self.named.keep(block.name.bytes(), added.unit)
    }
}

/// All blocks of a crate.
pub(crate) fn add_tops<'a>(alloc: Global, blocks: &'a [Block]) -> Result<Tops<'a>, NoMemory>
    ensures { IfOk result (λ tops. TopsFit tops (map block_tree blocks.now)) }
{
    let mut tops = Tops {
        sites: Vec::new(alloc),
        named: Named::new(alloc),
    };
    let mut rest = blocks;
    while let Some((first, others)) = rest.split_first() {
        tops.add(alloc, first)?;
        rest = others;
    }
    Ok(tops)
}
