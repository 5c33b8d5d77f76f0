ghost use Rattle.std.specs.Prelude.{◌≤◌, length, Some};
ghost use Rattle.pac_cli.specs.Answers.{AnswersText};
ghost use Rattle.pac_cli.specs.Stages.{Does, Types};
ghost use Rattle.pac_cli.specs.Worlds.{desk, paper};

use crate::script::run_script;
use frag_parse::parse_crate;
use frag_types::{TypedCrate, type_crate};
use pac_bus::Bus;
use pac_fault::PacFault;
use pac_io::Sink;
use std::alloc::Global;

/// Runs a script against a crate text over a bus, and writes its events.
pub(crate) fn execute<B: Bus, S: Sink>(
    alloc: Global,
    krate: &[u8],
    script: &[u8],
    bus: &mut B,
    out: &mut S,
) -> Result<(), PacFault>
    requires { length script.now ≤ 67_108_864 }
    ensures { Does (AnswersText krate.now script.now)
        (desk (paper (S.written out.old) (S.faults out.old)) (Some (B.told bus.old)))
        (desk (paper (S.written out.new) (S.faults out.new)) (Some (B.told bus.new)))
        result }
{
    let typed = typed(alloc, krate)?;
    run_script(alloc, &typed, script, bus, out)
}

/// The crate that a text spells, where it fits.
fn typed(alloc: Global, text: &[u8]) -> Result<TypedCrate, PacFault>
    ensures { Types text.now result }
{
    let krate = parse_crate(alloc, text)?;
    let typed = type_crate(alloc, krate)?;
    Ok(typed)
}
