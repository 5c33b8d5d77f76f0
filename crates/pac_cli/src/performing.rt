ghost use Rattle.std.specs.Prelude.{◌≡◌, IfOk, None, true};
ghost use Rattle.pac_cli.specs.Answers.{Decides, has_numbers};
ghost use Rattle.pac_cli.specs.Buses.{OthersStay, bus_of, kinds_of, lent_for, missing_kind, slots_of};
ghost use Rattle.pac_cli.specs.Headline.{WritesText};
ghost use Rattle.pac_inputs.specs.Gathering.{FitLimits};
ghost use Rattle.pac_cli.specs.Inputs.{files_of};
ghost use Rattle.pac_cli.specs.Stages.{Does};
ghost use Rattle.pac_cli.specs.Worlds.{desk, paper};

use crate::executing::execute;
use crate::generating::generate;
use crate::listing::list;
use crate::numbers::numbers_of;
use crate::running::run_against;
use crate::sampling::sample;
use crate::slot::{BusSlot, place_of};
use crate::source::described;
use pac_bus::Bus;
use pac_fault::PacFault;
use pac_io::{Bytes, Sink};
use pac_words::{BusKind, Command};
use std::alloc::Global;

/// Does what a command asks for, with the bytes of its files and the lent buses. The one that it runs its
/// script over has to be among them, and `sample` has to have its numbers.
pub(crate) fn perform<S: Sink, B: Bus>(
    alloc: Global,
    command: &Command,
    inputs: &[Bytes],
    out: &mut S,
    buses: &mut Vec<BusSlot<B>>,
) -> Result<(), PacFault>
    requires limits { FitLimits (files_of command.now) inputs.now }
    requires numbers { has_numbers command.now ≡ true }
    requires lent { missing_kind (bus_of command.now) (kinds_of (slots_of B.told buses.old.items)) ≡ None }
    ensures does { Does (Decides command.now inputs.now)
        (desk (paper (S.written out.old) (S.faults out.old)) (lent_for (bus_of command.now) (slots_of B.told buses.old.items)))
        (desk (paper (S.written out.new) (S.faults out.new)) (lent_for (bus_of command.now) (slots_of B.told buses.new.items)))
        result }
    ensures others { OthersStay (bus_of command.now) (slots_of B.told buses.old.items) (slots_of B.told buses.new.items) }
    ensures headline { IfOk result (λ _. WritesText command.now inputs.now (S.written out.old) (S.written out.new)) }
{
    match (command, inputs) {
        (Command::Listing { source }, files) => list(alloc, described(source, files), out),
        (Command::Generating { source }, files) => generate(alloc, described(source, files), out),
        (Command::Executing { run, .. }, [krate, script]) => {
            let place = place_of(buses.as_slice(), run.bus);
            let bus = &mut buses[place].bus;
            execute(alloc, krate.as_slice(), script.as_slice(), bus, out)
        }
        (Command::Running { source, run }, [files @ .., script]) => {
            let source = described(source, files);
            let place = place_of(buses.as_slice(), run.bus);
            let bus = &mut buses[place].bus;
            run_against(alloc, source, script.as_slice(), bus, out)
        }
        (Command::Sampling { number, count }, _) => {
            let Some((number, count)) = numbers_of(number, count) else {
                unreachable!()
            };
            let place = place_of(buses.as_slice(), BusKind::Memory);
            let bus = &mut buses[place].bus;
            sample(alloc, number, count, bus, out)
        }
        (Command::Executing { .. }, _) => unreachable!(),
        (Command::Running { .. }, _) => unreachable!(),
    }
}
