ghost use Rattle.std.specs.Prelude.{◌≡◌, ◌≤◌, None, [], length, IfOk};
ghost use Rattle.std.specs.List.{AllByRecursion};
ghost use Rattle.frag_sem.specs.CrateTyping.{CrateFits};
ghost use Rattle.frag_sem.specs.ScriptTyping.{script_fault};
ghost use Rattle.frag_sem.specs.TextSurface.{text_surface};
ghost use Rattle.frag_tree.specs.Trees.{crate_tree};
ghost use Rattle.frag_eval.specs.Called.{IsHeld};
ghost use Rattle.frag_eval.specs.Plans.{IsPlan, MakesReady};
ghost use Rattle.frag_eval.specs.Preparing.{Prepares};

use crate::course::Course;
use crate::deed::Deed;
use crate::preset::{called_presets, set_all};
use crate::ready::Ready;
use crate::script::lower_script;
use frag_index::Index;
use frag_tree::{Crate, Events, Script};
use frag_types::{TypedCrate, TypedScript};
use pac_base::{Back, NoMemory};
use pac_bus::{Bus, Preset};
use std::alloc::Global;
use std::snapshot::Snapshot;

/// What a run needs: all that there is to do, room for the words that it reads and for its events, and the
/// presets before it.
#[derive(Drop)]
pub(crate) struct Plan {
    pub deeds: Vec<Deed>,
    pub words: Vec<u64>,
    pub made: Events,
    pub presets: Vec<Preset>,
}

/// No events, with room for so many.
fn room_for(alloc: Global, count: usize) -> Result<Events, NoMemory>
    ensures list { IfOk result (λ made. made.list ≡ []) }
    ensures room { IfOk result (λ made. count ≤ made.spare) }
{
    let mut made = Events::new(alloc);
    made.reserve(count as u64)?;
    Ok(made)
}

/// What a run of a script needs against a crate that fits.
fn plan_of(alloc: Global, krate: &Crate, script: &Script) -> Result<Plan, NoMemory>
    requires { CrateFits (crate_tree krate.now) }
    ensures { IfOk result (λ plan. IsPlan (crate_tree krate.now) script.now plan) }
{
    let index = Index::new(alloc, krate)?;
    let deeds = lower_script(alloc, &index, script)?;
    let presets = called_presets(alloc, &index, script)?;
    let words = Vec::with_capacity(alloc, deeds.len())?;
    let made = room_for(alloc, deeds.len())?;
    Ok(Plan {
        deeds,
        words,
        made,
        presets,
    })
}

/// Makes the presets of a plan on a bus, and then room for its accesses.
fn make_ready<B: Bus>(plan: &Plan, bus: &mut B) -> Result<(), NoMemory>
    requires { AllByRecursion IsHeld plan.now.presets.items }
    ensures { MakesReady result (B.told bus.old) (B.told bus.new) plan.now }
{
    set_all(plan.presets.as_slice(), bus)?;
    bus.ready(plan.deeds.len() as u64)
}

/// Makes a script ready to run against a crate, which it fits. The bus is preset with the reset word of each
/// register that the script calls, once, in the order of the first calls; registers are told apart by their
/// places, not by their addresses. It gets room for every access. Want of memory is the one refusal: the
/// script comes back, and the first of the presets may have been made.
pub fn prepare<B: Bus>(
    alloc: Global,
    krate: &TypedCrate,
    script: TypedScript,
    bus: &mut B,
) -> Result<Ready, Back<TypedScript, NoMemory>>
    requires { script_fault (text_surface (crate_tree krate.now)) script ≡ None }
    ensures { Prepares result (B.told bus.old) (B.told bus.new) krate.now script }
{
    match plan_of(alloc, krate.krate(), script.script()) {
        Ok(plan) => match make_ready(&plan, bus) {
            Ok(()) => Ok(Ready {
                course: Course {
                    of: Snapshot::of(krate),
                    script,
                    deeds: plan.deeds,
                    next: 0,
                    words: plan.words,
                    made: plan.made,
                },
            }),
            Err(_) => Err(Back {
                state: script,
                fault: NoMemory,
            }),
        },
        Err(_) => Err(Back {
            state: script,
            fault: NoMemory,
        }),
    }
}
