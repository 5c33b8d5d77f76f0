ghost use Rattle.std.specs.Prelude.{◌≡◌, OnOk};
ghost use Rattle.need_order.specs.Gathering.{Gathers, lacks};
ghost use Rattle.need_order.specs.Needs.{needs_of};
ghost use Rattle.need_order.specs.Ranks.{rank_of, rises_to};

use crate::gathered::Gathered;
use pac_base::NoMemory;

/// An element, which needs its base and its parts, by their numbers.
#[derive(Drop)]
pub struct Element {
    /// The element as which it begins, where it has one.
    pub base: Option<usize>,
    /// What it has of its own.
    pub parts: Vec<usize>,
}

/// Whether one of these isn't gathered.
fn lacks_any(set: &Gathered, needs: &[usize]) -> bool
    ensures { result ≡ lacks set.now.items needs.now }
{
    for need in needs {
        if !set.has(*need) {
            return true;
        }
    }
    false
}

/// The rank of an element, 0 where it has none.
pub(crate) fn rank_of(ranks: &[usize], element: usize) -> usize
    ensures { result ≡ rank_of ranks.now element }
{
    match ranks.get(element) {
        Some(rank) => *rank,
        None => 0,
    }
}

/// Whether one of these is of this rank or above it.
fn any_rises_to(ranks: &[usize], rank: usize, needs: &[usize]) -> bool
    ensures { result ≡ rises_to ranks.now rank needs.now }
{
    for need in needs {
        if rank <= rank_of(ranks, *need) {
            return true;
        }
    }
    false
}

/// Gathers these too.
fn add_each(needs: &[usize], set: &mut Gathered) -> Result<(), NoMemory>
    ensures { OnOk result (Gathers set.old set.new needs.now) }
{
    for need in needs {
        set.add(*need)?;
    }
    Ok(())
}

impl Element {
    /// Whether something that it needs isn't gathered.
    pub(crate) fn lacks(&self, set: &Gathered) -> bool
        ensures { result ≡ lacks set.now.items (needs_of self.now) }
    {
        if let Some(base) = self.base {
            if !set.has(base) {
                return true;
            }
        }
        lacks_any(set, self.parts.as_slice())
    }

    /// Whether something that it needs is of this rank or above it.
    pub(crate) fn rises_to(&self, ranks: &[usize], rank: usize) -> bool
        ensures { result ≡ rises_to ranks.now rank (needs_of self.now) }
    {
        if let Some(base) = self.base {
            if rank <= rank_of(ranks, base) {
                return true;
            }
        }
        any_rises_to(ranks, rank, self.parts.as_slice())
    }

    /// Gathers what it needs.
    #[tactic(auto, unfolding(crate::specs::Gathering::with_items))]
    pub(crate) fn add_needs(&self, set: &mut Gathered) -> Result<(), NoMemory>
        ensures { OnOk result (Gathers set.old set.new (needs_of self.now)) }
    {
        match self.base {
            Some(base) => {
                set.add(base)?;
                add_each(self.parts.as_slice(), set)
            }
            None => add_each(self.parts.as_slice(), set),
        }
    }
}
