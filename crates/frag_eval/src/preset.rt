ghost use Rattle.std.specs.Prelude.{◌≡◌, ◌++◌, IfOk, map, option_map};
ghost use Rattle.std.specs.List.{AllByRecursion};
ghost use Rattle.frag_index.specs.Sites.{IsIndex};
ghost use Rattle.frag_index.specs.Walks.{StartsBelow, found_seen};
ghost use Rattle.frag_sem.specs.CallPlaces.{register_at};
ghost use Rattle.frag_sem.specs.TextMeaning.{text_presets};
ghost use Rattle.frag_tree.specs.Trees.{crate_tree};
ghost use Rattle.frag_tree.specs.declared.statement.Place.{Place as PlaceRow};
ghost use Rattle.frag_eval.specs.Called.{AddsPlace, IsHeld, SetsAll, preset_at, preset_seen};

use crate::keys::{PlaceKey, take};
use crate::script::called;
use frag_index::{Found, Index, register_at};
use frag_tree::{Place, Script};
use indexmap::IndexSet;
use pac_base::NoMemory;
use pac_bus::{Bus, Preset};
use std::alloc::Global;

/// The places that were called, and the presets of their registers.
#[derive(Drop)]
pub(crate) struct Called<'a> {
    pub seen: IndexSet<PlaceKey<'a>>,
    pub presets: Vec<Preset>,
}

/// Puts the preset of a register behind others, where there is a register.
fn add_preset(found: Option<Found<'_, '_>>, presets: &mut Vec<Preset>) -> Result<(), NoMemory>
    ensures { IfOk result (λ _. map preset_seen presets.new.items ≡ map preset_seen presets.old.items ++ preset_at (option_map found_seen found.entry)) }
{
    match found {
        Some(found) => {
            presets.push(Preset {
                address: found.address,
                width: found.register.word(),
                value: found.register.reset(),
            })?;
            Ok(())
        }
        None => Ok(()),
    }
}

/// Takes a place in that is called, unless it was called before.
fn add_place<'a>(
    alloc: Global,
    index: &Index<'_>,
    place: &'a Place,
    called: &mut Called<'a>,
) -> Result<(), NoMemory>
    requires index { IsIndex index.now }
    requires range { (place : PlaceRow) → StartsBelow (register_at (crate_tree index.now.krate.now) place) }
    ensures { IfOk result (λ _. AddsPlace (crate_tree index.now.krate.now) place.now called.old called.new) }
{
    let fresh = take(alloc, &mut called.seen, place)?;
    if fresh {
        return add_preset(register_at(index, place), &mut called.presets);
    }
    Ok(())
}

/// The presets of a script: of each register that it calls the reset word, in the order of the first calls.
pub(crate) fn called_presets(
    alloc: Global,
    index: &Index<'_>,
    script: &Script,
) -> Result<Vec<Preset>, NoMemory>
    requires index { IsIndex index.now }
    requires range { (place : PlaceRow) → StartsBelow (register_at (crate_tree index.now.krate.now) place) }
    ensures { IfOk result (λ presets. map preset_seen presets.items ≡ text_presets (crate_tree index.now.krate.now) script.now) }
{
    let mut made = Called {
        seen: IndexSet::new(alloc),
        presets: Vec::new(alloc),
    };
    let mut rest = script.lines.as_slice();
    while let Some((line, others)) = rest.split_first() {
        if let Some(place) = called(&line.statement) {
            add_place(alloc, index, place, &mut made)?;
        }
        rest = others;
    }
    Ok(made.presets)
}

/// Makes presets on a bus, one after the other.
pub(crate) fn set_all<B: Bus>(presets: &[Preset], bus: &mut B) -> Result<(), NoMemory>
    requires { AllByRecursion IsHeld presets.now }
    ensures { SetsAll result (B.told bus.old) (B.told bus.new) presets.now }
{
    let mut rest = presets;
    while let Some((&preset, others)) = rest.split_first() {
        bus.preset(preset.address, preset.width, preset.value)?;
        rest = others;
    }
    Ok(())
}
