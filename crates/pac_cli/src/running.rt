ghost use Rattle.std.specs.Prelude.{◌≡◌, ◌≤◌, length, IfErr, IfOk, Some};
ghost use Rattle.frag_emit.specs.Standing.{StandsFor};
ghost use Rattle.frag_tree.specs.Trees.{crate_tree};
ghost use Rattle.pac_cli.specs.Answers.{AnswersRun};
ghost use Rattle.pac_cli.specs.Resolving.{FitsLimits, bytes_in};
ghost use Rattle.pac_cli.specs.Stages.{Does};
ghost use Rattle.pac_cli.specs.Worlds.{desk, paper};
ghost use Rattle.pac_fault.specs.declared.fault.PacFault.TheVariants.{Memory};

use crate::resolving::resolve;
use crate::script::run_script;
use crate::source::Description;
use frag_emit::emit;
use frag_types::{TypedCrate, type_crate};
use pac_bus::Bus;
use pac_fault::PacFault;
use pac_io::Sink;
use std::alloc::Global;
use svd_model::Checked;

/// Runs a script against the crate text of a description over a bus, and writes its events. It goes by the
/// text, so that it shows what a user's crate does; the events are those of the register table.
pub(crate) fn run_against<B: Bus, S: Sink>(
    alloc: Global,
    source: Description<'_>,
    script: &[u8],
    bus: &mut B,
    out: &mut S,
) -> Result<(), PacFault>
    requires description { FitsLimits (bytes_in source) }
    requires script { length script.now ≤ 67_108_864 }
    ensures { Does (AnswersRun (bytes_in source.entry) script.now)
        (desk (paper (S.written out.old) (S.faults out.old)) (Some (B.told bus.old)))
        (desk (paper (S.written out.new) (S.faults out.new)) (Some (B.told bus.new)))
        result }
{
    let state = resolve(alloc, source)?;
    let krate = emitted(alloc, &state)?;
    run_script(alloc, &krate, script, bus, out)
}

/// The crate of a checked description, which fits.
pub(crate) fn emitted(alloc: Global, state: &Checked) -> Result<TypedCrate, PacFault>
    ensures stands { IfOk result (λ krate. StandsFor state.now (crate_tree krate)) }
    ensures memory { IfErr result (λ fault. fault ≡ Memory) }
{
    let krate = emit(alloc, state)?;
    let typed = type_crate(alloc, krate)?;
    Ok(typed)
}
