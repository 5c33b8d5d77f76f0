ghost use Rattle.std.specs.Prelude.{◌≡◌, [], ℕ, Bool, IfOk, List, None, Some, find, if◌then◌else◌, is_none, is_some, map, not, option_map, true, ◌++◌, ◌∷◌};
ghost use Rattle.std.specs.List.{list_any};
ghost use Rattle.std.specs.Map.{lookup};
ghost use Rattle.std.specs.Option.{option_copied, option_or};
ghost use Rattle.std.specs.Str.{bytes_eq};
ghost use Rattle.frag_sem.specs.Modules.{are_distinct_names, module_name};
ghost use Rattle.frag_tree.specs.Trees.{block_tree, module_tree};
ghost use Rattle.frag_rules.specs.Elements.{element_of};
ghost use Rattle.frag_rules.specs.Held.{names_seen};
ghost use Rattle.frag_rules.specs.Naming.{FindsFirst};

use frag_tree::{
    Access, Block, Identifier, Module, NumberCall, Reader, Slot, StructField, TruthCall, Writer,
};
use indexmap::{IndexMap, IndexSet};
use pac_base::NoMemory;
use std::alloc::Global;
use std::marker::Model;

/// What has a name.
pub trait HasName {
    // The name, as its bytes.
    ghost name_of: { Self → List ℕ };

    /// The name.
    fn own_name(&self) -> &[u8]
        ensures { result.now ≡ name_of self.now };
}

impl HasName for Identifier {
    ghost name_of = { λ name. name };

    fn own_name(&self) -> &[u8] {
        self.bytes()
    }
}

impl HasName for Slot {
    ghost name_of = { λ slot. slot.name };

    fn own_name(&self) -> &[u8] {
        self.name.bytes()
    }
}

impl HasName for Block {
    ghost name_of = { λ block. (block_tree block).head.name };

    fn own_name(&self) -> &[u8] {
        self.name.bytes()
    }
}

impl HasName for Module {
    ghost name_of = { λ unit. module_name (element_of (module_tree unit)) };

    fn own_name(&self) -> &[u8] {
        match self {
            Module::Block(block) => block.own_name(),
            Module::Register(register) => register.name.bytes(),
        }
    }
}

impl HasName for StructField {
    ghost name_of = { λ field. field.name };

    fn own_name(&self) -> &[u8] {
        self.name.bytes()
    }
}

impl HasName for Access {
    ghost name_of = { λ access. access.name };

    fn own_name(&self) -> &[u8] {
        self.name.bytes()
    }
}

impl HasName for Reader {
    ghost name_of = { λ reader. reader.name };

    fn own_name(&self) -> &[u8] {
        self.name.bytes()
    }
}

impl HasName for Writer {
    ghost name_of = { λ writer. writer.name };

    fn own_name(&self) -> &[u8] {
        self.name.bytes()
    }
}

impl HasName for TruthCall {
    ghost name_of = { λ call. call.name };

    fn own_name(&self) -> &[u8] {
        self.name.bytes()
    }
}

impl HasName for NumberCall {
    ghost name_of = { λ call. call.name };

    fn own_name(&self) -> &[u8] {
        self.name.bytes()
    }
}

/// Items by their names. Contracts see it as a list of names with their items.
#[derive(Drop)]
pub struct Named<'a, T> {
    held: IndexMap<&'a [u8], T>,
}

impl<'a, T> Model for Named<'a, T> {
    ghost use Rattle.std.specs.Prelude.{List, ℕ, map};
    ghost use Rattle.frag_rules.specs.Held.{entries_in};

    ghost Value = { List (List ℕ × T) };

    ghost view = { λ named. entries_in named.held };
}

impl<'a, T: Drop> Named<'a, T> {
    /// No items.
    pub fn new(alloc: Global) -> Named<'a, T>
        ensures { result ≡ [] }
    {
        Named {
            held: IndexMap::new(alloc),
        }
    }

    /// The item that has the name.
    pub fn get(&self, name: &[u8]) -> Option<&T>
        ensures { option_copied result ≡ lookup (bytes_eq name.now) self.now }
    {
        self.held.get(name)
    }

    /// Whether an item has the name.
    pub fn has(&self, name: &[u8]) -> bool
        ensures { result ≡ is_some (lookup (bytes_eq name.now) self.now) }
    {
        self.get(name).is_some()
    }

    /// Gives the name this item, in place of the one that it has.
    pub fn set(&mut self, name: &'a [u8], item: T) -> Result<(), NoMemory>
        ensures { IfOk result (λ _. (other : List ℕ) → lookup (bytes_eq other) self.new ≡ (if bytes_eq other name.now then Some item else lookup (bytes_eq other) self.old)) }
    {
        self.held.insert(name, item)?;
        Ok(())
    }

    /// Gives the name this item, where it has none.
    pub fn keep(&mut self, name: &'a [u8], item: T) -> Result<(), NoMemory>
        ensures { IfOk result (λ _. (other : List ℕ) → lookup (bytes_eq other) self.new ≡ option_or (lookup (bytes_eq other) self.old) (if bytes_eq other name.now then Some item else None)) }
    {
        if self.has(name) {
            return Ok(());
        }
        self.held.insert(name, item)?;
        Ok(())
    }
}

/// Items by their names, the first where several have one name.
pub fn by_name<'a, T: HasName>(alloc: Global, items: &'a [T]) -> Result<Named<'a, &'a T>, NoMemory>
    ensures { IfOk result (λ named. FindsFirst T.HasName.name_of items.now named) }
{
    let mut named = Named::new(alloc);
    let mut rest = items;
    while let Some((first, others)) = rest.split_first() {
        named.keep(first.own_name(), first)?;
        rest = others;
    }
    Ok(named)
}

/// Keeps the name, and says whether it is new.
fn is_new<'a>(seen: &mut IndexSet<&'a [u8]>, name: &'a [u8]) -> Result<bool, NoMemory>
    ensures new { IfOk result (λ fresh. fresh ≡ not (list_any (bytes_eq name.now) (names_seen seen.old))) }
    ensures kept { IfOk result (λ fresh. fresh ≡ true → names_seen seen.new ≡ names_seen seen.old ++ name.now ∷ []) }
{
    Ok(seen.insert(name)?)
}

/// The first item whose name one before it has.
pub(crate) fn first_again<T: HasName>(alloc: Global, items: &[T]) -> Result<Option<usize>, NoMemory>
    ensures { IfOk result (λ again. is_none again ≡ are_distinct_names (map T.HasName.name_of items.now)) }
{
    let mut seen = IndexSet::new(alloc);
    let mut rest = items;
    while let Some((first, others)) = rest.split_first() {
        if !is_new(&mut seen, first.own_name())? {
            return Ok(Some(items.len().saturating_sub(rest.len())));
        }
        rest = others;
    }
    Ok(None)
}
