ghost use Rattle.std.specs.Prelude.{◌≡◌, ◌<◌, ℕ, true, length, IfOk, OnOk};
ghost use Rattle.need_order.specs.Needs.{among, needs};
ghost use Rattle.need_order.specs.Settling.{IsSettled, Sweeps, Tries};

use crate::element::Element;
use crate::gathered::Gathered;
use pac_base::NoMemory;
use std::alloc::Global;

/// Gathers an element where all that it needs is gathered.
#[tactic(auto, unfolding(crate::specs::Needs::needs))]
fn settle(elements: &[Element], number: usize, set: &mut Gathered) -> Result<(), NoMemory>
    ensures { OnOk result (Tries (needs elements.now) (length elements.now) set.old set.new number) }
{
    match elements.get(number) {
        Some(element) => {
            if element.lacks(set) {
                return Ok(());
            }
            set.add(number)
        }
        None => Ok(()),
    }
}

/// The same for these elements, one after the other.
fn sweep(elements: &[Element], numbers: &[usize], set: &mut Gathered) -> Result<(), NoMemory>
    ensures { OnOk result (Sweeps (needs elements.now) (length elements.now) set.old set.new numbers.now) }
{
    for number in numbers {
        settle(elements, *number, set)?;
    }
    Ok(())
}

/// The numbers below this one.
fn numbers_below(alloc: Global, limit: usize) -> Result<Vec<usize>, NoMemory>
    ensures { IfOk result (λ made. (e : ℕ) → e < limit → among e made.items ≡ true) }
{
    let mut made = Vec::new(alloc);
    for number in 0..limit {
        made.push(number)?;
    }
    Ok(made)
}

/// Gathers elements until each that is left lacks something. They are tried in the hinted order first: where
/// that is an order behind needs, it takes two sweeps.
pub(crate) fn settle_all(
    alloc: Global,
    elements: &[Element],
    hint: &[usize],
) -> Result<Gathered, NoMemory>
    ensures { IfOk result (λ set. IsSettled (needs elements.now) (length elements.now) set.items) }
{
    let mut set = Gathered::new(alloc, elements.len())?;
    let all = numbers_below(alloc, elements.len())?;
    sweep(elements, hint, &mut set)?;
    for round in 0..elements.len() {
        let before = set.len();
        sweep(elements, all.as_slice(), &mut set)?;
        if set.len() == before {
            return Ok(set);
        }
    }
    Ok(set)
}
