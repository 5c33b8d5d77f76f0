ghost use Rattle.std.specs.Prelude.{◌≡◌, ◌+◌, ℕ, List, length, false, get_or, IfOk};
ghost use Rattle.need_order.specs.Children.{AreChildren, Counts, flag_weight, told};
ghost use Rattle.need_order.specs.Needs.{IsOrder, needs};

use crate::below::sum_at;
use crate::element::Element;
use pac_base::NoMemory;
use std::alloc::Global;

/// Whether the flag of an element is set; it isn't where there is none.
fn flag_at(flags: &[bool], number: usize) -> bool
    ensures { result ≡ get_or flags.now number false }
{
    match flags.get(number) {
        Some(flag) => *flag,
        None => false,
    }
}

/// A sum, and one more where the flag is set, at most `u64::MAX`.
fn count_with(flag: bool, sum: u128) -> u64
    ensures { result ≡ told (flag_weight flag + sum) }
{
    match u64::try_from(sum) {
        Ok(below) => below.saturating_add(u64::from(flag)),
        Err(_) => u64::MAX,
    }
}

/// How many elements whose flags are set stand at each element and below it, at most `u64::MAX`. The children of an element are
/// those of its base and its own parts, but for those that `dropped` lists for it. They are counted along an
/// order, in time linear in what is listed, however many children an element has.
pub fn counted(
    alloc: Global,
    elements: &[Element],
    dropped: &[Vec<usize>],
    order: &[usize],
    flags: &[bool],
) -> Result<Vec<u64>, NoMemory>
    ghost children: { ℕ → List ℕ }
    requires children { AreChildren elements.now dropped.now children }
    requires order { IsOrder (needs elements.now) (length elements.now) order.now }
    ensures { IfOk result (λ counts. Counts flags.now children (length elements.now) counts.items) }
{
    let mut sums: Vec<u128> = vec![in alloc; 0; elements.len()]?;
    let mut counts: Vec<u64> = vec![in alloc; 0; elements.len()]?;
    for number in order {
        let sum = sum_at(
            elements,
            dropped,
            counts.as_slice(),
            sums.as_slice(),
            *number,
        )?;
        sums[*number] = sum;
        counts[*number] = count_with(flag_at(flags, *number), sum);
    }
    Ok(counts)
}
