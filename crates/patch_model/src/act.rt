ghost use Rattle.std.specs.Prelude.{◌≡◌, [], ◌∷◌, ◌++◌, length, OnOk, OnErr, option_map, slice_get};
ghost use Rattle.std.specs.Option.{option_copied};
ghost use Rattle.patch_model.specs.Acts.{addition_under, additions_under};

use glob_select::Pattern;
use pac_base::{Name, NoMemory, Seq, Text};
use std::alloc::Global;

/// Patterns in order, from the device inwards.
pub type Patterns = Seq<Pattern>;

/// Keys and their values, in the order of the file.
pub type Keys = Seq<(Text, Text)>;

/// The commands of a patch, in the order in which they are carried out.
pub type Commands = Seq<Command>;

/// A command of a patch.
#[derive(Drop)]
pub struct Command {
    /// The line of its entry or item, counted from 1.
    pub line: u32,
    /// The patterns of the mappings round it.
    pub parents: Patterns,
    /// What it does.
    pub act: Act,
}

/// What a command does at each element that its parents lead to (svdtools' patch commands,
/// narrowed).
#[derive(Drop)]
pub enum Act {
    /// Opens each matching child.
    Open(Pattern),
    /// Takes away each matching child.
    Delete(Pattern),
    /// Copies the child `from` under a new name, and sets the keys.
    Copy { name: Name, from: Name, keys: Keys },
    /// Sets the keys on each matching child.
    Modify { target: Pattern, keys: Keys },
    /// Sets the keys of the device.
    ModifyDevice(Keys),
    /// Adds an element.
    Add(Addition),
    /// Takes a prefix off the names of the children.
    Strip(Text),
    /// Makes the matching children one array of that name.
    Array { target: Pattern, name: Name },
}

/// An element that is added, and those within it.
#[derive(Drop)]
#[cycle(additions)]
pub struct Addition {
    /// Its name.
    pub name: Name,
    /// Its keys.
    pub keys: Keys,
    /// The registers that are added to it.
    pub registers: Additions,
    /// The fields that are added to it.
    pub fields: Additions,
}

/// Elements that are added, in order.
#[derive(Drop)]
#[cycle(additions)]
pub struct Additions {
    /// The elements.
    pub items: Vec<Addition>,
}

/// What stands at a place counted from 0.
fn at<T>(all: &[T], index: usize) -> Option<&T>
    ensures { option_copied result ≡ slice_get all.now index }
{
    all.get(index)
}

impl Additions {
    /// The empty list, which takes no memory yet.
    pub fn new(alloc: Global) -> Additions
        ensures { additions_under result ≡ [] }
    {
        Additions {
            items: Vec::new(alloc),
        }
    }

    /// How many there are.
    pub fn len(&self) -> usize
        ensures { result ≡ length (additions_under self.now) }
    {
        self.items.len()
    }

    /// The one at a place counted from 0. `None` where the list isn't that long.
    pub fn get(&self, index: usize) -> Option<&Addition>
        ensures { option_map addition_under (option_copied result) ≡ slice_get (additions_under self.now) index }
    {
        at(self.items.as_slice(), index)
    }

    /// Adds one at the end. Where memory is wanting the list stays as it was.
    pub fn push(&mut self, addition: Addition) -> Result<(), NoMemory>
        ensures ok { OnOk result (additions_under self.new ≡ additions_under self.old ++ addition_under addition ∷ []) }
        ensures memory { OnErr result (additions_under self.new ≡ additions_under self.old) }
    {
        self.items.push(addition)?;
        Ok(())
    }
}
