ghost use Rattle.std.specs.Prelude.{◌≤◌, length, Some};
ghost use Rattle.frag_sem.specs.TextSurface.{text_surface};
ghost use Rattle.frag_tree.specs.Trees.{crate_tree};
ghost use Rattle.pac_cli.specs.Answers.{AnswersSample, AnswersScript, text_sum};
ghost use Rattle.pac_cli.specs.Stages.{Does};
ghost use Rattle.pac_cli.specs.Worlds.{desk, paper};
ghost use Rattle.pac_sample.specs.Wanted.{IsCount};

use crate::resolving::resolve;
use crate::running::emitted;
use crate::script::script_for;
use crate::source::Description;
use frag_eval::{prepare, run};
use frag_types::TypedCrate;
use overlap_check::Policy;
use pac_bus::Bus;
use pac_fault::PacFault;
use pac_io::Sink;
use pac_sample::{sample_source, script_source, write_summary};
use std::alloc::Global;

/// Makes the sample of these numbers, runs its script against the crate text of its description over a bus,
/// and writes the summary of the run.
pub(crate) fn sample<B: Bus, S: Sink>(
    alloc: Global,
    number: u64,
    count: u64,
    bus: &mut B,
    out: &mut S,
) -> Result<(), PacFault>
    requires { IsCount count }
    ensures { Does (AnswersSample number count)
        (desk (paper (S.written out.old) (S.faults out.old)) (Some (B.told bus.old)))
        (desk (paper (S.written out.new) (S.faults out.new)) (Some (B.told bus.new)))
        result }
{
    let svd = sample_source(alloc, number, count)?;
    let script = script_source(alloc, count)?;
    let source = Description {
        svd: svd.as_slice(),
        patch: None,
        policy: Policy::Loose,
    };
    let state = resolve(alloc, source)?;
    let krate = emitted(alloc, &state)?;
    sum_up(alloc, &krate, script.as_slice(), count, bus, out)
}

/// Runs a script against a crate that fits, over a bus, and writes what the run came to. Where the bus fails,
/// nothing is written.
fn sum_up<B: Bus, S: Sink>(
    alloc: Global,
    krate: &TypedCrate,
    script: &[u8],
    count: u64,
    bus: &mut B,
    out: &mut S,
) -> Result<(), PacFault>
    requires { length script.now ≤ 67_108_864 }
    ensures { Does (AnswersScript (text_surface (crate_tree krate.now)) (text_sum count (crate_tree krate.now)) script.now)
        (desk (paper (S.written out.old) (S.faults out.old)) (Some (B.told bus.old)))
        (desk (paper (S.written out.new) (S.faults out.new)) (Some (B.told bus.new)))
        result }
{
    let script = script_for(alloc, krate, script)?;
    let ready = prepare(alloc, krate, script, bus)?;
    match run(ready, bus) {
        Ok(events) => {
            write_summary(alloc, count, events.as_slice(), out)?;
            Ok(())
        }
        Err(fault) => Err(PacFault::Bus { done: fault.done }),
    }
}
