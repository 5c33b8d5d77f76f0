ghost use Rattle.pac_cli.specs.Telling.{Tells};
ghost use Rattle.pac_cli.specs.Worlds.{paper};

use crate::outcome::Told;
use pac_fault::{PacFault, fault_line};
use pac_io::{Sink, SinkFault};
use std::alloc::Global;

/// Writes the line of the fault, where there is one.
pub(crate) fn tell<E: Sink>(alloc: Global, fault: &Option<PacFault>, err: &mut E) -> Told
    ensures { Tells fault.now result (paper (E.written err.old) (E.faults err.old)) (paper (E.written err.new) (E.faults err.new)) }
{
    let Some(fault) = fault else {
        return Told::Whole;
    };
    let Ok(line) = fault_line(alloc, fault) else {
        return Told::Memory;
    };
    match line.finish(err) {
        Ok(()) => Told::Whole,
        Err(SinkFault::Failed) => Told::Failed,
        Err(SinkFault::Memory) => Told::Memory,
    }
}
