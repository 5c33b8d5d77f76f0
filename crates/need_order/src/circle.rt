ghost use Rattle.std.specs.Prelude.{◌≡◌, length, true, IfOk, slice_get, Some};
ghost use Rattle.std.specs.Bool.{Decides};
ghost use Rattle.need_order.specs.Needs.{IsBasedOnCircle, IsFirstOnCircle, IsWithin, needs};
ghost use Rattle.need_order.specs.Ranks.{IsFalling};

use crate::element::{Element, rank_of};
use crate::reach::reaches;
use pac_base::NoMemory;
use std::alloc::Global;

/// Whether no element needs one of a rank above its own.
fn is_falling(elements: &[Element], ranks: &[usize]) -> bool
    ensures { result ≡ true → IsFalling (needs elements.now) ranks.now }
{
    let mut number = 0;
    for element in elements {
        let rank = rank_of(ranks, number);
        if rank == usize::MAX {
            return false;
        }
        if element.rises_to(ranks, rank + 1) {
            return false;
        }
        number += 1;
    }
    true
}

/// Whether an element has a base and its needs lead to itself. Where ranks fall along needs, and strictly
/// here, they don't.
fn is_on_circle(
    alloc: Global,
    elements: &[Element],
    ranks: &[usize],
    falling: bool,
    element: &Element,
    number: usize,
) -> Result<bool, NoMemory>
    requires within { IsWithin (needs elements.now) (length elements.now) }
    requires ranks { falling ≡ true → IsFalling (needs elements.now) ranks.now }
    requires here { slice_get elements.now number ≡ Some element.now }
    ensures { IfOk result (λ found. Decides found (IsBasedOnCircle elements.now number)) }
{
    if element.base.is_none() {
        return Ok(false);
    }
    if falling {
        if !element.rises_to(ranks, rank_of(ranks, number)) {
            return Ok(false);
        }
    }
    reaches(alloc, elements, number, number)
}

/// The first element with a base whose needs lead to itself. Ranks, which may be any, spare searches: where
/// they are those of the strong components, one search at most is made.
pub(crate) fn first_on_circle(
    alloc: Global,
    elements: &[Element],
    ranks: &[usize],
) -> Result<Option<usize>, NoMemory>
    requires { IsWithin (needs elements.now) (length elements.now) }
    ensures { IfOk result (λ found. IsFirstOnCircle elements.now found) }
{
    let falling = is_falling(elements, ranks);
    let mut number = 0;
    for element in elements {
        if is_on_circle(alloc, elements, ranks, falling, element, number)? {
            return Ok(Some(number));
        }
        number += 1;
    }
    Ok(None)
}
