ghost use Rattle.std.specs.Prelude.{◌↔◌, ◌≡◌, length, IsTrue, nat_le};
ghost use Rattle.std.specs.List.{list_any};
ghost use Rattle.need_order.specs.Needs.{IsWithin, needs, needs_of};

use crate::element::Element;

/// Whether one of these is at or past a limit.
fn any_past(limit: usize, numbers: &[usize]) -> bool
    ensures { result ≡ list_any (λ d. nat_le limit d) numbers.now }
{
    for number in numbers {
        if limit <= *number {
            return true;
        }
    }
    false
}

/// Whether an element needs one at or past a limit.
fn needs_past(limit: usize, element: &Element) -> bool
    ensures { result ≡ list_any (λ d. nat_le limit d) (needs_of element.now) }
{
    if let Some(base) = element.base {
        if limit <= base {
            return true;
        }
    }
    any_past(limit, element.parts.as_slice())
}

/// Whether all that elements need are elements, as [`ordered`](crate::ordered) asks of them.
pub fn is_within(elements: &[Element]) -> bool
    ensures { IsTrue result ↔ IsWithin (needs elements.now) (length elements.now) }
{
    for element in elements {
        if needs_past(elements.len(), element) {
            return false;
        }
    }
    true
}
