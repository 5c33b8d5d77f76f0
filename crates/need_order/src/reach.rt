ghost use Rattle.std.specs.Prelude.{◌≡◌, length, IfOk, OnOk};
ghost use Rattle.std.specs.Bool.{Decides};
ghost use Rattle.need_order.specs.Gathering.{Gathers};
ghost use Rattle.need_order.specs.Needs.{IsWithin, Leads, needs};

use crate::element::Element;
use crate::gathered::Gathered;
use pac_base::NoMemory;
use std::alloc::Global;

/// Gathers what the element of this number needs.
#[tactic(auto, unfolding(crate::specs::Needs::needs, crate::specs::Gathering::with_items))]
fn add_needs(elements: &[Element], number: usize, set: &mut Gathered) -> Result<(), NoMemory>
    ensures { OnOk result (Gathers set.old set.new (needs elements.now number)) }
{
    match elements.get(number) {
        Some(element) => element.add_needs(set),
        None => Ok(()),
    }
}

/// Whether needs lead from one element to another.
pub(crate) fn reaches(
    alloc: Global,
    elements: &[Element],
    from: usize,
    to: usize,
) -> Result<bool, NoMemory>
    requires { IsWithin (needs elements.now) (length elements.now) }
    ensures { IfOk result (λ found. Decides found (Leads (needs elements.now) from to)) }
{
    let mut set = Gathered::new(alloc, elements.len())?;
    add_needs(elements, from, &mut set)?;
    for place in 0..elements.len() {
        let number = match set.get(place) {
            Some(number) => *number,
            None => return Ok(set.has(to)),
        };
        add_needs(elements, number, &mut set)?;
    }
    Ok(set.has(to))
}
