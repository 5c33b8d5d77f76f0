ghost use Rattle.std.specs.Prelude.{◌≡◌, ◌<◌, ◌-◌, ◌^◌, ◌++◌, ◌∷◌, [], ℕ, List, OnOk, IfOk};
ghost use Rattle.dim_expand.specs.Tallies.{Tallies};
ghost use Rattle.dim_expand.specs.Unfolding.{count_behind};

use indexmap::IndexMap;
use pac_base::{Name, NoMemory};
use std::alloc::Global;
use svd_model::Sibling;

/// How many siblings of each written name there are so far.
#[derive(Drop)]
pub struct Tally {
    counts: IndexMap<Name, u32>,
}

impl Tally {
    /// No sibling.
    pub fn new(alloc: Global) -> Tally
        ensures { Tallies [] result.counts.entries }
    {
        Tally {
            counts: IndexMap::new(alloc),
        }
    }

    /// How many siblings of that name there are.
    fn count(&self, name: &Name) -> u32
        ensures { (before : List (List ℕ)) → Tallies before self.now.counts.entries → result ≡ count_behind before name.now }
    {
        match self.counts.get(name) {
            Some(count) => *count,
            None => 0,
        }
    }

    /// The key of one more sibling of that name. The count stays at 2^32 - 1, which no description reaches.
    pub fn next(&mut self, alloc: Global, name: Name) -> Result<Sibling, NoMemory>
        ensures name { IfOk result (λ key. key.name ≡ name) }
        ensures number { IfOk result (λ key. (before : List (List ℕ)) → Tallies before self.old.counts.entries → key.number ≡ count_behind before name) }
        ensures tally { OnOk result ((before : List (List ℕ)) → Tallies before self.old.counts.entries → count_behind before name < 2 ^ 32 - 1 → Tallies (before ++ name ∷ []) self.new.counts.entries) }
    {
        let number = self.count(&name);
        self.counts
            .insert(name.copy(alloc)?, number.saturating_add(1))?;
        Ok(Sibling { name, number })
    }
}
