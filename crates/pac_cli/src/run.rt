ghost use Rattle.std.specs.Result.{result_err};
ghost use Rattle.std.specs.Prelude.{◌≡◌, IfOk, None};
ghost use Rattle.pac_cli.specs.Headline.{WordsHaveText};
ghost use Rattle.pac_cli.specs.Buses.{OthersStay, bus_asked, slots_of};
ghost use Rattle.pac_words.specs.Commands.{command_of};
ghost use Rattle.pac_cli.specs.Standing.{Stands, IsComplete};
ghost use Rattle.pac_cli.specs.Stages.{AsksFor};
ghost use Rattle.pac_cli.specs.Telling.{Tells};
ghost use Rattle.pac_cli.specs.Worlds.{paper, world};
ghost use Rattle.pac_inputs.specs.Shelves.{shelf};
ghost use Rattle.pac_fault.specs.Statuses.{status_of};

use crate::inputs::files_of;
use crate::numbers::check_numbers;
use crate::outcome::Outcome;
use crate::performing::perform;
use crate::slot::{BusSlot, find_bus};
use crate::telling::tell;
use pac_base::Text;
use pac_bus::Bus;
use pac_fault::{PacFault, WordsFault, status_of};
use pac_inputs::gather;
use pac_io::{Files, Sink};
use pac_words::{Command, command_of};
use std::alloc::Global;

/// Does what the words ask for: reads the files that they name, runs a script over the first of the lent
/// buses that is of the kind they choose, writes the output to `out`, and one line to `err` where there is
/// a fault. The fault is the first in the order of the stages: the words, the numbers, the bus, the
/// files, the description, the crate text, the script, the run, the writing.
pub fn run_pac<F: Files, S: Sink, E: Sink, B: Bus>(
    alloc: Global,
    words: &[Text],
    files: &mut F,
    out: &mut S,
    err: &mut E,
    buses: &mut Vec<BusSlot<B>>,
) -> Outcome
    // Each fault, and none, has its cause, and says what was asked for and written.
    ensures stands { Stands words.now
        (world (shelf (F.told files.old) (F.asked files.old) (F.faults files.old)) (paper (S.written out.old) (S.faults out.old)) (slots_of B.told buses.old.items))
        (world (shelf (F.told files.new) (F.asked files.new) (F.faults files.new)) (paper (S.written out.new) (S.faults out.new)) (slots_of B.told buses.new.items))
        result.fault }

    // No lent bus changes but the first of the kind that the words choose.
    ensures others { OthersStay (bus_asked (command_of words.now)) (slots_of B.told buses.old.items) (slots_of B.told buses.new.items) }

    // The answer that the words, the lent buses and the told files decide is the one that comes.
    ensures complete { IsComplete words.now
        (world (shelf (F.told files.old) (F.asked files.old) (F.faults files.old)) (paper (S.written out.old) (S.faults out.old)) (slots_of B.told buses.old.items))
        (world (shelf (F.told files.new) (F.asked files.new) (F.faults files.new)) (paper (S.written out.new) (S.faults out.new)) (slots_of B.told buses.new.items))
        result.fault }
    // The text that `generate` writes stands for the description.
    ensures headline { result.fault ≡ None → WordsHaveText (command_of words.now) (F.told files.old) (S.written out.old) (S.written out.new) }
    ensures status { result.status ≡ status_of result.fault }
    ensures told { Tells result.fault result.told (paper (E.written err.old) (E.faults err.old)) (paper (E.written err.new) (E.faults err.new)) }
{
    let fault = answer(alloc, words, files, out, buses).err();
    let told = tell(alloc, &fault, err);
    let status = status_of(&fault);
    Outcome {
        status,
        fault,
        told,
    }
}

fn answer<F: Files, S: Sink, B: Bus>(
    alloc: Global,
    words: &[Text],
    files: &mut F,
    out: &mut S,
    buses: &mut Vec<BusSlot<B>>,
) -> Result<(), PacFault>
    ensures stands { Stands words.now
        (world (shelf (F.told files.old) (F.asked files.old) (F.faults files.old)) (paper (S.written out.old) (S.faults out.old)) (slots_of B.told buses.old.items))
        (world (shelf (F.told files.new) (F.asked files.new) (F.faults files.new)) (paper (S.written out.new) (S.faults out.new)) (slots_of B.told buses.new.items))
        (result_err result) }
    ensures others { OthersStay (bus_asked (command_of words.now)) (slots_of B.told buses.old.items) (slots_of B.told buses.new.items) }
    ensures headline { IfOk result (λ _. WordsHaveText (command_of words.now) (F.told files.old) (S.written out.old) (S.written out.new)) }
{
    let command = asked_for(alloc, words)?;
    check_numbers(&command)?;
    find_bus(&command, buses.as_slice())?;
    let wanted = files_of(alloc, &command)?;
    let inputs = gather(alloc, wanted, files)?;
    perform(alloc, &command, inputs.as_slice(), out, buses)
}

/// The command that the words ask for.
fn asked_for(alloc: Global, words: &[Text]) -> Result<Command, PacFault>
    ensures { AsksFor words.now result }
{
    match command_of(alloc, words)? {
        Some(command) => Ok(command),
        None => Err(PacFault::Words(WordsFault::Clap)),
    }
}
