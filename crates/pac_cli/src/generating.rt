ghost use Rattle.std.specs.Prelude.{IfOk};
ghost use Rattle.pac_cli.specs.Answers.{AnswersSource, generated};
ghost use Rattle.pac_cli.specs.Headline.{WritesTextFor};
ghost use Rattle.pac_cli.specs.Resolving.{FitsLimits, bytes_in};
ghost use Rattle.pac_cli.specs.Stages.{Does};
ghost use Rattle.pac_cli.specs.Worlds.{alone, paper};

use crate::resolving::resolve;
use crate::source::Description;
use frag_emit::print_text;
use pac_fault::PacFault;
use pac_io::Sink;
use std::alloc::Global;

/// Writes the text of the peripheral access crate of a description, one module after the other.
pub(crate) fn generate<S: Sink>(
    alloc: Global,
    source: Description<'_>,
    out: &mut S,
) -> Result<(), PacFault>
    requires { FitsLimits (bytes_in source) }
    ensures does { Does (AnswersSource generated (bytes_in source.entry))
        (alone (paper (S.written out.old) (S.faults out.old)))
        (alone (paper (S.written out.new) (S.faults out.new)))
        result }
    ensures headline { IfOk result (λ _.
        WritesTextFor (bytes_in source.entry) (S.written out.old) (S.written out.new)) }
{
    let state = resolve(alloc, source)?;
    print_text(alloc, &state, out)?;
    Ok(())
}
