ghost use Rattle.std.specs.Prelude.{◌≡◌, IfOk, List, option_map};
ghost use Rattle.frag_sem.specs.CallPlaces.{count_of};
ghost use Rattle.frag_sem.specs.PlaceTyping.{inner_named, inner_of};
ghost use Rattle.frag_tree.specs.Trees.{block_tree, module_tree, one_block};
ghost use Rattle.frag_index.specs.declared.site.Site.{Site as SiteRow};
ghost use Rattle.frag_index.specs.Sites.{HoldsNothing, IsAdded, LeadsBehind, SiteFits, field_count};

use crate::unit::Unit;
use frag_rules::{Inside, Layout, Measure, Named};
use frag_tree::{Access, Block, Body, FieldType, Module, StructField};
use pac_base::NoMemory;
use std::alloc::Global;

/// A module of a crate.
#[derive(Drop)]
pub enum Inner<'a> {
    /// A register's.
    Register(Unit<'a>),
    /// A block's, with its number in the index.
    Block(&'a Block, usize),
}

/// A module behind an accessor, and how many members the accessor leads to; none where it takes no index.
#[derive(Clone, Copy)]
pub struct Behind<'i, 'a> {
    pub count: Option<u64>,
    pub unit: &'i Inner<'a>,
}

/// A module that was taken into the index, with what it takes.
#[derive(Drop)]
pub(crate) struct Added<'a> {
    pub unit: Inner<'a>,
    pub measure: Measure,
}

/// The modules inside one parent, and what each takes.
#[derive(Drop)]
pub struct Within<'a> {
    pub units: Inside<'a, Inner<'a>>,
    pub measures: Inside<'a, Measure>,
}

impl<'a> Within<'a> {
    /// No modules.
    pub(crate) fn new(alloc: Global) -> Within<'a>
        ensures { HoldsNothing result }
    {
        Within {
            units: Inside::new(alloc),
            measures: Inside::new(alloc),
        }
    }

    /// Keeps a module, where none before it is named so.
    pub(crate) fn keep(&mut self, part: &'a Module, added: Added<'a>) -> Result<(), NoMemory>
        ensures { IfOk result (λ _. IsAdded self.old (module_tree part.now) added.entry self.new) }
    {
        self.units.keep(part, added.unit)?;
        self.measures.keep(part, added.measure)
    }
}

/// A block, with what is looked up in it by name.
#[derive(Drop)]
pub struct Site<'a> {
    pub block: &'a Block,
    pub accessors: Named<'a, &'a Access>,
    pub fields: Named<'a, &'a StructField>,
    pub within: Within<'a>,
    /// Where the fields of its struct stand.
    pub layout: Layout<'a>,
}

/// How many members a field has that is an array.
fn type_count(field: Option<&&StructField>) -> Option<u64>
    ensures { result ≡ field_count (option_map (λ found. found.now.now) field.entry) }
{
    match field {
        Some(field) => match &field.holds {
            FieldType::Array { count, .. } => Some(*count),
            FieldType::One(_) => None,
            FieldType::Gap { .. } => None,
        },
        None => None,
    }
}

impl<'a> Site<'a> {
    /// How many members an accessor leads to; none where it takes no index.
    pub(crate) fn count_of(&self, access: &Access) -> Option<u64>
        ensures { (sites : List SiteRow) → SiteFits sites self.now → result ≡ count_of (block_tree self.now.block.now) access.now }
    {
        match &access.body {
            Body::Field { .. } => None,
            Body::Member { field } => type_count(self.fields.get(field.bytes())),
            Body::At { .. } => None,
            Body::AtIndex { count, .. } => Some(*count),
        }
    }

    /// The module behind an accessor.
    fn through<'i>(&'i self, access: &Access) -> Option<Behind<'i, 'a>>
        ensures { (sites : List SiteRow) → SiteFits sites self.now → LeadsBehind sites (inner_of (block_tree self.now.block.now) access.now) result }
    {
        match self.within.units.get(&access.element) {
            Some(unit) => Some(Behind {
                count: self.count_of(access),
                unit,
            }),
            None => None,
        }
    }

    /// The module behind the accessor of a name.
    pub(crate) fn behind<'i>(&'i self, name: &[u8]) -> Option<Behind<'i, 'a>>
        ensures { (sites : List SiteRow) → SiteFits sites self.now → LeadsBehind sites (inner_named (one_block (block_tree self.now.block.now)) name.now) result }
    {
        match self.accessors.get(name) {
            Some(access) => self.through(*access),
            None => None,
        }
    }
}
