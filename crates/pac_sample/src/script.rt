ghost use Rattle.std.specs.Prelude.{◌≡◌, ◌++◌, OnOk};
ghost use Rattle.pac_io.specs.Writing.{SinkCause, Writes};
ghost use Rattle.pac_sample.specs.Script.{register_place, sample_script, script_line};
ghost use Rattle.pac_sample.specs.Wanted.{IsCount};

use crate::description::REGISTERS;
use crate::parts::{Parts, write_parts};
use pac_base::NoMemory;
use pac_io::{Page, Sink, SinkFault};
use std::alloc::Global;

/// The lines of a sample's script, one for each register.
#[derive(Drop)]
struct Lines;

/// Writes the script that modifies each register of a sample once, in a line for each. Its condition is that there
/// are 1 to 65,536 registers.
pub fn sample_script<S: Sink>(alloc: Global, count: u64, sink: &mut S) -> Result<(), SinkFault>
    requires { IsCount count }
    ensures growth { Writes result (S.written sink.old) (S.written sink.new) (sample_script count) }
    ensures cause { SinkCause result (S.faults sink.old) (S.faults sink.new) }
{
    write_parts(alloc, &Lines, count, b"", b"", sink)
}

impl Parts for Lines {
    ghost part = { λ _ j. script_line j };

    #[tactic(auto, unfolding(crate::specs::Script::script_line))]
    fn push_part(&self, page: &mut Page, number: u64) -> Result<(), NoMemory> {
        push_call(page, number, b"().modify(|_, w| w.b().bits(1));\n")
    }
}

/// Appends the place of register `j`, its slot and its accessor, and what is called there.
#[tactic(auto, unfolding(crate::specs::Script::register_place))]
fn push_call(page: &mut Page, j: u64, call: &[u8]) -> Result<(), NoMemory>
    ensures { OnOk result (page.new ≡ page.old ++ (register_place j ++ call.now)) }
{
    page.push(b"P")?;
    page.decimal(j / REGISTERS)?;
    page.push(b".r")?;
    page.decimal(j % REGISTERS)?;
    page.push(call)
}
