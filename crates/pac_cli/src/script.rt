ghost use Rattle.std.specs.Prelude.{◌≡◌, ◌≤◌, All, length, Some};
ghost use Rattle.frag_sem.specs.TextSurface.{text_surface};
ghost use Rattle.frag_tree.specs.Trees.{crate_tree};
ghost use Rattle.pac_bus.specs.EventTexts.{HoldsWord, event_text};
ghost use Rattle.pac_cli.specs.Answers.{AnswersScript, text_plan};
ghost use Rattle.pac_cli.specs.Stages.{Does, ScriptsFor};
ghost use Rattle.pac_cli.specs.Worlds.{desk, paper};

use frag_eval::{prepare, run};
use frag_parse::parse_script;
use frag_types::{TypedCrate, TypedScript, type_script};
use pac_bus::{Bus, events_text};
use pac_fault::PacFault;
use pac_io::Sink;
use std::alloc::Global;

/// Runs a script against a crate that fits, over a bus, and writes a line for each event once the run has
/// ended. Where the bus fails, the lines of the events that were made are written before that is told.
pub(crate) fn run_script<B: Bus, S: Sink>(
    alloc: Global,
    krate: &TypedCrate,
    script: &[u8],
    bus: &mut B,
    out: &mut S,
) -> Result<(), PacFault>
    requires { length script.now ≤ 67_108_864 }
    ensures { Does (AnswersScript (text_surface (crate_tree krate.now)) (text_plan (crate_tree krate.now)) script.now)
        (desk (paper (S.written out.old) (S.faults out.old)) (Some (B.told bus.old)))
        (desk (paper (S.written out.new) (S.faults out.new)) (Some (B.told bus.new)))
        result }
{
    let _fits = krate.krate();
    let script = script_for(alloc, krate, script)?;
    let ready = prepare(alloc, krate, script, bus)?;
    match run(ready, bus) {
        Ok(events) => {
            events_text(alloc, &events, out)?;
            Ok(())
        }
        Err(fault) => {
            events_text(alloc, &fault.events, out)?;
            Err(PacFault::Bus { done: fault.done })
        }
    }
}

/// The script that a text spells, where it fits the crate.
pub(crate) fn script_for(
    alloc: Global,
    krate: &TypedCrate,
    text: &[u8],
) -> Result<TypedScript, PacFault>
    requires { length text.now ≤ 67_108_864 }
    ensures { ScriptsFor (text_surface (crate_tree krate.now)) text.now result }
{
    let script = parse_script(alloc, text)?;
    let typed = type_script(alloc, krate, script)?;
    Ok(typed)
}
