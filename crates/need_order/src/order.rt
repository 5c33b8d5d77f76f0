ghost use Rattle.std.specs.Prelude.{length, IfOk, OnOk};
ghost use Rattle.need_order.specs.Needs.{HasNoCircle, IsOrder, IsWithin, OnNoOrder, needs};

use crate::circle::first_on_circle;
use crate::element::Element;
use crate::fault::NeedFault;
use crate::search::hinted;
use crate::settle::settle_all;
use std::alloc::Global;

/// The numbers of all elements, each behind what it needs. `Circle` comes exactly where needs run in a circle,
/// with the first element with a base that lies on one.
pub fn ordered(alloc: Global, elements: &[Element]) -> Result<Vec<usize>, NeedFault>
    requires { IsWithin (needs elements.now) (length elements.now) }
    ensures order { IfOk result (λ order. IsOrder (needs elements.now) (length elements.now) order.items) }
    ensures no_circle { OnOk result (HasNoCircle (needs elements.now)) }
    ensures circle { OnNoOrder result elements.now }
{
    let hints = hinted(alloc, elements)?;
    let set = settle_all(alloc, elements, hints.order.as_slice())?;
    if set.len() < elements.len() {
        return Err(NeedFault::Circle {
            first: first_on_circle(alloc, elements, hints.ranks.as_slice())?,
        });
    }
    Ok(set.into_items())
}
