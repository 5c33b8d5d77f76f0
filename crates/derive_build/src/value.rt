//! Enumerated values and their sets, made of settled elements.
ghost use Rattle.std.specs.Prelude.{◌≡◌, [], map, unwrap_or, IfOk, OnOk};
ghost use Rattle.derive_build.specs.Making.{AddsNamed, MakesNamed};
ghost use Rattle.derive_build.specs.Taking.{set_by};
ghost use Rattle.svd_model.specs.Steps.{field, set, value};
ghost use Rattle.svd_model.specs.Trees.{numbered, set_tree, value_tree};
ghost use Rattle.svd_rows.specs.Ranks.{stated};

use crate::keys::Keys;
use crate::settled::Settled;
use pac_base::NoMemory;
use std::alloc::Global;
use svd_model::{Values, Variant, copied_name, copied_path};

/// The same enumerated value once more.
fn copied_value(alloc: Global, element: &Variant) -> Result<Variant, NoMemory>
    ensures { IfOk result (λ made. made ≡ element.now) }
{
    Ok(Variant {
        name: element.name.copy(alloc)?,
        value: element.value,
    })
}

/// Adds the enumerated value of a number.
fn add_value(
    alloc: Global,
    table: &[Settled<'_>],
    number: usize,
    made: &mut Vec<Variant>,
) -> Result<(), NoMemory>
    ensures { OnOk result (AddsNamed value_tree set table.now made.old.items made.new.items number) }
{
    match table.get(number) {
        Some(settled) => match settled.own.value() {
            Some(element) => {
                made.push(copied_value(alloc, element)?)?;
                Ok(())
            }
            None => Ok(()),
        },
        None => Ok(()),
    }
}

/// The enumerated values of these numbers.
fn values_of(
    alloc: Global,
    table: &[Settled<'_>],
    numbers: &[usize],
) -> Result<Vec<Variant>, NoMemory>
    ensures { IfOk result (λ made. MakesNamed value_tree set table.now made.items numbers.now) }
{
    let mut made = Vec::new(alloc);
    for number in numbers {
        add_value(alloc, table, *number, &mut made)?;
    }
    Ok(made)
}

/// A set with these keys and values.
#[tactic(auto, unfolding(svd_model::specs::Trees::set_places))]
fn set_of(
    alloc: Global,
    keys: &Keys<'_>,
    element: &Values,
    items: Vec<Variant>,
) -> Result<Values, NoMemory>
    ensures { IfOk result (λ made. set_tree made ≡ (unwrap_or element.now.name [], record { keys = stated (set_by element.now keys.now); below = numbered value 0 (map value_tree items.items) })) }
{
    Ok(Values {
        derived: copied_path(alloc, &element.derived)?,
        name: copied_name(alloc, &element.name)?,
        usage: keys.usage,
        items,
    })
}

/// Adds the set of a number.
fn add_set(
    alloc: Global,
    table: &[Settled<'_>],
    number: usize,
    made: &mut Vec<Values>,
) -> Result<(), NoMemory>
    ensures { OnOk result (AddsNamed set_tree field table.now made.old.items made.new.items number) }
{
    match table.get(number) {
        Some(settled) => match settled.own.set() {
            Some(element) => {
                let items = values_of(alloc, table, settled.children.as_slice())?;
                made.push(set_of(alloc, &settled.keys, element, items)?)?;
                Ok(())
            }
            None => Ok(()),
        },
        None => Ok(()),
    }
}

/// The sets of these numbers.
pub(crate) fn sets_of(
    alloc: Global,
    table: &[Settled<'_>],
    numbers: &[usize],
) -> Result<Vec<Values>, NoMemory>
    ensures { IfOk result (λ made. MakesNamed set_tree field table.now made.items numbers.now) }
{
    let mut made = Vec::new(alloc);
    for number in numbers {
        add_set(alloc, table, *number, &mut made)?;
    }
    Ok(made)
}
