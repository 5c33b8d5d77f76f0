ghost use Rattle.std.specs.Prelude.{◌≡◌};
ghost use Rattle.pac_cli.specs.Buses.{bus_of, kinds_of, missing_kind, place_in, same_kind, slots_of};
ghost use Rattle.pac_cli.specs.Stages.{Lends};

use pac_bus::Bus;
use pac_fault::{PacFault, WordsFault};
use pac_words::{BusKind, Command};

/// A bus that is lent for a call.
#[derive(Drop)]
pub struct BusSlot<B> {
    /// Which words choose it.
    pub kind: BusKind,
    /// The bus.
    pub bus: B,
}

/// The kind of bus that a command runs its script over. `None` where it runs no script.
fn bus_of(command: &Command) -> Option<BusKind>
    ensures { result ≡ bus_of command.now }
{
    match command {
        Command::Listing { .. } => None,
        Command::Generating { .. } => None,
        Command::Executing { run, .. } => Some(run.bus),
        Command::Running { run, .. } => Some(run.bus),
        Command::Sampling { .. } => Some(BusKind::Memory),
    }
}

/// Whether the buses are of the same kind.
fn same_kind(one: BusKind, other: BusKind) -> bool
    ensures { result ≡ same_kind one other }
{
    match (one, other) {
        (BusKind::Zero, BusKind::Zero) => true,
        (BusKind::Memory, BusKind::Memory) => true,
        (BusKind::Device, BusKind::Device) => true,
        (_, _) => false,
    }
}

/// The place of the first lent bus of a kind; past the last where none is.
pub(crate) fn place_of<B: Bus>(lent: &[BusSlot<B>], kind: BusKind) -> usize
    ensures { result ≡ place_in kind (kinds_of (slots_of B.told lent.now)) }
{
    let mut place = 0;
    for slot in lent {
        if same_kind(slot.kind, kind) {
            return place;
        }
        place += 1;
    }
    place
}

/// The bus that a command runs its script over has to be lent.
pub(crate) fn find_bus<B: Bus>(command: &Command, lent: &[BusSlot<B>]) -> Result<(), PacFault>
    ensures { Lends (missing_kind (bus_of command.now) (kinds_of (slots_of B.told lent.now))) result }
{
    let Some(kind) = bus_of(command) else {
        return Ok(());
    };
    if place_of(lent, kind) < lent.len() {
        return Ok(());
    }
    Err(PacFault::Words(WordsFault::NoBus { kind }))
}
