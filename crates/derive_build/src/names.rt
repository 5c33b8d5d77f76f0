ghost use Rattle.std.specs.Prelude.{◌≡◌, IfOk, OnOk, List, ℕ, Some, [], map, is_some, if◌then◌else◌};
ghost use Rattle.std.specs.Map.{lookup};
ghost use Rattle.std.specs.Str.{bytes_eq};

use indexmap::IndexMap;
use pac_base::NoMemory;
use std::alloc::Global;
use std::marker::Model;

/// A name as the key of an index.
#[derive(PartialEq, Eq, Hash, Drop)]
struct Spelled<'a> {
    name: &'a [u8],
}

/// Numbers of elements by names. Contracts see it as a list of names with their numbers.
#[derive(Drop)]
pub(crate) struct Names<'a> {
    held: IndexMap<Spelled<'a>, usize>,
}

impl<'a> Model for Names<'a> {
    ghost use Rattle.std.specs.Prelude.{List, ℕ};
    ghost use Rattle.derive_build.specs.Children.{names_in};

    ghost Value = { List (List ℕ × ℕ) };

    ghost view = { λ names. names_in names.held };
}

impl<'a> Names<'a> {
    /// No names.
    pub(crate) fn new(alloc: Global) -> Names<'a>
        ensures { result ≡ [] }
    {
        Names {
            held: IndexMap::new(alloc),
        }
    }

    /// The number of a name.
    pub(crate) fn get(&self, name: &[u8]) -> Option<usize>
        ensures { result ≡ lookup (bytes_eq name.now) self.now }
    {
        self.held.get(&Spelled { name }).copied()
    }

    /// Whether a name has a number.
    pub(crate) fn has(&self, name: &[u8]) -> bool
        ensures { result ≡ is_some (lookup (bytes_eq name.now) self.now) }
    {
        self.get(name).is_some()
    }

    /// Puts a number there, in place of the one that stands there.
    pub(crate) fn set(&mut self, name: &'a [u8], number: usize) -> Result<(), NoMemory>
        ensures { OnOk result ((text : List ℕ) → lookup (bytes_eq text) self.new ≡ (if bytes_eq text name.entry.now then Some number else lookup (bytes_eq text) self.old)) }
    {
        self.held.insert(Spelled { name }, number)?;
        Ok(())
    }
}
