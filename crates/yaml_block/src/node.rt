ghost use Rattle.std.specs.Prelude.{◌≡◌, [], ◌∷◌, ◌++◌, length, map, OnOk, OnErr, option_map, reverse, slice_get};
ghost use Rattle.std.specs.Option.{option_copied};
ghost use Rattle.yaml_block.specs.Nodes.{entries_under, entry_under, item_under, items_under};

use pac_base::{NoMemory, Text};
use std::alloc::Global;

/// What block text means: nothing, a scalar, a list or a mapping (YAML's null, scalar, sequence and
/// mapping).
#[derive(Drop)]
#[cycle(tree)]
pub enum Node {
    /// Nothing stands there.
    Empty,
    /// A scalar.
    Scalar(Text),
    /// A list.
    List(Items),
    /// A mapping.
    Map(Entries),
}

/// The items of a list in order, each with its line, counted from 1.
#[derive(Drop)]
#[cycle(tree)]
pub struct Items {
    /// Each line, and what stands there.
    pub items: Vec<(u32, Node)>,
}

/// The entries of a mapping in order, each with its line, counted from 1, its key and its value.
#[derive(Drop)]
#[cycle(tree)]
pub struct Entries {
    /// Each line, the key and its value.
    pub entries: Vec<(u32, Text, Node)>,
}

/// What stands at a place counted from 0.
fn at<T>(all: &[T], index: usize) -> Option<&T>
    ensures { option_copied result ≡ slice_get all.now index }
{
    all.get(index)
}

impl Items {
    /// The empty list, which takes no memory yet.
    pub fn new(alloc: Global) -> Items
        ensures { items_under result ≡ [] }
    {
        Items {
            items: Vec::new(alloc),
        }
    }

    /// How many items there are.
    pub fn len(&self) -> usize
        ensures { result ≡ length (items_under self.now) }
    {
        self.items.len()
    }

    /// The item at a place counted from 0. `None` where the list isn't that long.
    pub fn get(&self, index: usize) -> Option<&(u32, Node)>
        ensures { option_map item_under (option_copied result) ≡ slice_get (items_under self.now) index }
    {
        at(self.items.as_slice(), index)
    }

    /// The items, in order.
    pub fn as_slice(&self) -> &[(u32, Node)]
        ensures { map item_under result.now ≡ items_under self.now }
    {
        self.items.as_slice()
    }

    /// Adds an item at the end. Where memory is wanting the list stays as it was.
    pub fn push(&mut self, item: (u32, Node)) -> Result<(), NoMemory>
        ensures ok { OnOk result (items_under self.new ≡ items_under self.old ++ item_under item ∷ []) }
        ensures memory { OnErr result (items_under self.new ≡ items_under self.old) }
    {
        self.items.push(item)?;
        Ok(())
    }

    /// The items in the other order.
    pub(crate) fn turned(self) -> Items
        ensures { items_under result ≡ reverse (items_under self) }
    {
        let mut items = self.items;
        items.reverse();
        Items { items }
    }
}

impl Entries {
    /// The empty mapping, which takes no memory yet.
    pub fn new(alloc: Global) -> Entries
        ensures { entries_under result ≡ [] }
    {
        Entries {
            entries: Vec::new(alloc),
        }
    }

    /// How many entries there are.
    pub fn len(&self) -> usize
        ensures { result ≡ length (entries_under self.now) }
    {
        self.entries.len()
    }

    /// The entry at a place counted from 0. `None` where the list isn't that long.
    pub fn get(&self, index: usize) -> Option<&(u32, Text, Node)>
        ensures { option_map entry_under (option_copied result) ≡ slice_get (entries_under self.now) index }
    {
        at(self.entries.as_slice(), index)
    }

    /// The entries, in order.
    pub fn as_slice(&self) -> &[(u32, Text, Node)]
        ensures { map entry_under result.now ≡ entries_under self.now }
    {
        self.entries.as_slice()
    }

    /// Adds an entry at the end. Where memory is wanting the list stays as it was.
    pub fn push(&mut self, entry: (u32, Text, Node)) -> Result<(), NoMemory>
        ensures ok { OnOk result (entries_under self.new ≡ entries_under self.old ++ entry_under entry ∷ []) }
        ensures memory { OnErr result (entries_under self.new ≡ entries_under self.old) }
    {
        self.entries.push(entry)?;
        Ok(())
    }

    /// The entries in the other order.
    pub(crate) fn turned(self) -> Entries
        ensures { entries_under result ≡ reverse (entries_under self) }
    {
        let mut entries = self.entries;
        entries.reverse();
        Entries { entries }
    }
}
