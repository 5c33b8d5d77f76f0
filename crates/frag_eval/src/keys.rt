ghost use Rattle.std.specs.Prelude.{◌≡◌, ◌++◌, ◌∷◌, [], not, IfOk, map, if◌then◌else◌};
ghost use Rattle.std.specs.List.{list_any};
ghost use Rattle.frag_sem.specs.Presets.{same_place};
ghost use Rattle.frag_eval.specs.Keys.{key_seen, step_seen};

use frag_tree::{Call, Place};
use indexmap::IndexSet;
use pac_base::NoMemory;
use std::alloc::Global;

/// An accessor with its index, by which places are told apart.
#[derive(PartialEq, Eq, Hash, Drop)]
pub(crate) struct StepKey<'a> {
    pub name: &'a [u8],
    pub index: Option<u64>,
}

/// A place, by which registers are told apart.
#[derive(PartialEq, Eq, Hash, Drop)]
pub(crate) struct PlaceKey<'a> {
    pub slot: &'a [u8],
    pub steps: Vec<StepKey<'a>>,
}

fn step_keys<'a>(alloc: Global, steps: &'a [Call]) -> Result<Vec<StepKey<'a>>, NoMemory>
    ensures { IfOk result (λ keys. map step_seen keys.items ≡ steps.now) }
{
    let mut keys = Vec::new(alloc);
    let mut rest = steps;
    while let Some((step, others)) = rest.split_first() {
        keys.push(StepKey {
            name: step.name.bytes(),
            index: step.index,
        })?;
        rest = others;
    }
    Ok(keys)
}

fn key_of<'a>(alloc: Global, place: &'a Place) -> Result<PlaceKey<'a>, NoMemory>
    ensures { IfOk result (λ key. key_seen key ≡ place.now) }
{
    let steps = step_keys(alloc, place.steps.as_slice())?;
    Ok(PlaceKey {
        slot: place.slot.bytes(),
        steps,
    })
}

/// Takes a place in, and says whether it is a new one.
pub(crate) fn take<'a>(
    alloc: Global,
    seen: &mut IndexSet<PlaceKey<'a>>,
    place: &'a Place,
) -> Result<bool, NoMemory>
    ensures new { IfOk result (λ fresh. fresh ≡ not (list_any (λ other. same_place other place.now) (map key_seen seen.old.keys))) }
    ensures kept { IfOk result (λ fresh. map key_seen seen.new.keys ≡ (if fresh then map key_seen seen.old.keys ++ place.now ∷ [] else map key_seen seen.old.keys)) }
{
    Ok(seen.insert(key_of(alloc, place)?)?)
}
