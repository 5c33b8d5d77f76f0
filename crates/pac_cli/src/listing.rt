ghost use Rattle.pac_cli.specs.Answers.{AnswersSource, listed};
ghost use Rattle.pac_cli.specs.Resolving.{FitsLimits, bytes_in};
ghost use Rattle.pac_cli.specs.Stages.{Does};
ghost use Rattle.pac_cli.specs.Worlds.{alone, paper};

use crate::resolving::resolve;
use crate::source::Description;
use pac_fault::PacFault;
use pac_io::Sink;
use reg_table::{list_text, table};
use std::alloc::Global;

/// Writes a line for each register of a description, and one for each of its fields.
pub(crate) fn list<S: Sink>(
    alloc: Global,
    source: Description<'_>,
    out: &mut S,
) -> Result<(), PacFault>
    requires { FitsLimits (bytes_in source) }
    ensures { Does (AnswersSource listed (bytes_in source.entry))
        (alone (paper (S.written out.old) (S.faults out.old)))
        (alone (paper (S.written out.new) (S.faults out.new)))
        result }
{
    let state = resolve(alloc, source)?;
    let rows = table(alloc, &state)?;
    list_text(alloc, &rows, out)?;
    Ok(())
}
