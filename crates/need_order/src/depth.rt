ghost use Rattle.std.specs.Prelude.{◌≡◌, ◌<◌, ℕ, List, length, map, false, get_or, IfOk};
ghost use Rattle.std.specs.List.{list_any};
ghost use Rattle.need_order.specs.Children.{AreChildren, Deepens, Flags, flag_weight};
ghost use Rattle.need_order.specs.Needs.{IsOrder, needs};

use crate::below::sum_at;
use crate::element::Element;
use pac_base::NoMemory;
use std::alloc::Global;

/// The weights of flags.
fn flag_weights(alloc: Global, flags: &[bool]) -> Result<Vec<u64>, NoMemory>
    ensures { IfOk result (λ weights. weights.items ≡ map flag_weight flags.now) }
{
    let mut weights = Vec::new(alloc);
    for flag in flags {
        weights.push(u64::from(*flag))?;
    }
    Ok(weights)
}

/// Which elements have a child whose flag is set.
fn deeper(
    alloc: Global,
    elements: &[Element],
    dropped: &[Vec<usize>],
    order: &[usize],
    flags: &[bool],
) -> Result<Vec<bool>, NoMemory>
    ghost children: { ℕ → List ℕ }
    requires children { AreChildren elements.now dropped.now children }
    requires order { IsOrder (needs elements.now) (length elements.now) order.now }
    ensures { IfOk result (λ next. Deepens children (length elements.now) flags.now next.items) }
{
    let weights = flag_weights(alloc, flags)?;
    let mut sums: Vec<u128> = vec![in alloc; 0; elements.len()]?;
    let mut next: Vec<bool> = vec![in alloc; false; elements.len()]?;
    for number in order {
        let sum = sum_at(
            elements,
            dropped,
            weights.as_slice(),
            sums.as_slice(),
            *number,
        )?;
        sums[*number] = sum;
        next[*number] = sum > 0;
    }
    Ok(next)
}

/// Below which elements as many others as `levels` stand one below the other. The children of an element are
/// as in [`counted`](crate::counted). It takes a pass along the order for each level that any element has.
pub fn deep(
    alloc: Global,
    elements: &[Element],
    dropped: &[Vec<usize>],
    order: &[usize],
    levels: usize,
) -> Result<Vec<bool>, NoMemory>
    ghost children: { ℕ → List ℕ }
    requires children { AreChildren elements.now dropped.now children }
    requires order { IsOrder (needs elements.now) (length elements.now) order.now }
    ensures { IfOk result (λ flags. Flags children (length elements.now) levels flags.items) }
{
    let mut flags: Vec<bool> = vec![in alloc; true; elements.len()]?;
    for _level in 0..levels {
        let next = deeper(alloc, elements, dropped, order, flags.as_slice())?;
        if !next.contains(&true) {
            return Ok(next);
        }
        flags = next;
    }
    Ok(flags)
}
