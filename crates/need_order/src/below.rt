ghost use Rattle.std.specs.Prelude.{◌≡◌, ◌+◌, get_or, sum_by, IfOk};
ghost use Rattle.need_order.specs.Below.{IsSumAt, base_sum, begun_sum, weigh};
ghost use Rattle.need_order.specs.Children.{items_at};

use crate::element::Element;
use pac_base::NoMemory;

/// The weight of an element, 0 where none is told.
fn weight_at(weights: &[u64], number: usize) -> u64
    ensures { result ≡ weigh weights.now number }
{
    match weights.get(number) {
        Some(weight) => *weight,
        None => 0,
    }
}

/// A sum of weights. Past 128 bits memory is said to be wanting.
fn sum_of(total: u128, more: u128) -> Result<u128, NoMemory>
    ensures { IfOk result (λ sum. sum ≡ total + more) }
{
    match total.checked_add(more) {
        Some(sum) => Ok(sum),
        None => Err(NoMemory),
    }
}

/// What these weigh together.
fn total_of(weights: &[u64], numbers: &[usize]) -> Result<u128, NoMemory>
    ensures { IfOk result (λ total. total ≡ sum_by (weigh weights.now) numbers.now) }
{
    let mut total: u128 = 0;
    for number in numbers {
        total = sum_of(total, u128::from(weight_at(weights, *number)))?;
    }
    Ok(total)
}

/// What the children of a base weigh together.
fn base_sum(sums: &[u128], base: Option<usize>) -> u128
    ensures { result ≡ base_sum sums.now base }
{
    match base {
        Some(base) => match sums.get(base) {
            Some(sum) => *sum,
            None => 0,
        },
        None => 0,
    }
}

/// What the children of the base of an element and its own parts weigh together.
#[tactic(auto, unfolding(crate::specs::Below::begun_sum))]
fn begun_at(
    elements: &[Element],
    weights: &[u64],
    sums: &[u128],
    number: usize,
) -> Result<u128, NoMemory>
    ensures { IfOk result (λ sum. sum ≡ begun_sum elements.now weights.now sums.now number) }
{
    match elements.get(number) {
        Some(element) => sum_of(
            base_sum(sums, element.base),
            total_of(weights, element.parts.as_slice())?,
        ),
        None => Ok(0),
    }
}

/// What the children that an element drops weigh together.
#[tactic(auto, unfolding(crate::specs::Children::items_at))]
fn dropped_at(dropped: &[Vec<usize>], weights: &[u64], number: usize) -> Result<u128, NoMemory>
    ensures { IfOk result (λ sum. sum ≡ sum_by (weigh weights.now) (items_at dropped.now number)) }
{
    match dropped.get(number) {
        Some(numbers) => total_of(weights, numbers.as_slice()),
        None => Ok(0),
    }
}

/// What the children of an element weigh together, by what those of its base weigh.
pub(crate) fn sum_at(
    elements: &[Element],
    dropped: &[Vec<usize>],
    weights: &[u64],
    sums: &[u128],
    number: usize,
) -> Result<u128, NoMemory>
    ensures { IfOk result (λ sum. IsSumAt elements.now dropped.now weights.now sums.now number sum) }
{
    let begun = begun_at(elements, weights, sums, number)?;
    let less = dropped_at(dropped, weights, number)?;
    match begun.checked_sub(less) {
        Some(sum) => Ok(sum),
        None => Err(NoMemory),
    }
}
