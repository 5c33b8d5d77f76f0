ghost use Rattle.std.specs.Prelude.{◌<◌, ◌^◌, All, IfOk};
ghost use Rattle.pac_bus.specs.EventTexts.{HoldsWord};

use frag_tree::{Event, Events, Said};
use pac_base::{NoMemory, Width};
use pac_bus::{AnyBus, Bus, FailBus, MemBus, ZeroBus, events_text};
use pac_io::{MemSink, SinkFault};
use std::alloc::Global;
use std::test::Fail;

/// A bus of bytes.
pub(crate) fn memory(alloc: Global) -> Result<AnyBus, NoMemory> {
    Ok(AnyBus {
        bus: Box::new(alloc, MemBus::new(alloc))?,
    })
}

/// A bus of zeros.
pub(crate) fn zeros(alloc: Global) -> Result<AnyBus, NoMemory> {
    Ok(AnyBus {
        bus: Box::new(alloc, ZeroBus::new(alloc))?,
    })
}

/// A bus that fails at these accesses.
pub(crate) fn failing(alloc: Global, accesses: &[u64]) -> Result<AnyBus, NoMemory> {
    let mut bus = FailBus::new(alloc);
    for access in accesses {
        bus.fail(*access)?;
    }
    Ok(AnyBus {
        bus: Box::new(alloc, bus)?,
    })
}

// A word of one of the four widths.
#[derive(Clone, Copy)]
enum Word {
    Byte(u8),
    Half(u16),
    Whole(u32),
    Double(u64),
}

// What is done at an address; a read has the word that it must give.
#[derive(Clone, Copy)]
enum Step {
    Preset(u32, Word),
    Write(u32, Word),
    Read(u32, Word),
}

// Little end first across widths, a preset over a preset, bytes that no preset holds, and zeros.
const STEPS: &[Step] = &[
    Step::Preset(0x10, Word::Whole(0x1122_3344)),
    Step::Read(0x10, Word::Half(0x3344)),
    Step::Write(0x11, Word::Half(0xabcd)),
    Step::Read(0x10, Word::Whole(0x11ab_cd44)),
    Step::Read(0x12, Word::Byte(0xab)),
    Step::Write(0x20, Word::Double(0x0102_0304_0506_0708)),
    Step::Read(0x24, Word::Whole(0x0102_0304)),
    Step::Read(0x27, Word::Byte(1)),
    Step::Preset(0x24, Word::Byte(9)),
    Step::Read(0x20, Word::Double(0x0102_0309_0506_0708)),
    Step::Preset(0x30, Word::Whole(0xffff_ffff)),
    Step::Preset(0x30, Word::Byte(2)),
    Step::Read(0x30, Word::Whole(0xffff_ff02)),
    Step::Write(0x12, Word::Whole(0)),
    Step::Read(0x10, Word::Whole(0x0000_cd44)),
    Step::Read(0x15, Word::Half(0)),
    Step::Read(0xffff_ffff, Word::Double(0)),
];

// Whether a word could be preset.
fn preset(bus: &mut AnyBus, address: u64, word: Word) -> bool
    requires { address < 2 ^ 32 }
{
    match word {
        Word::Byte(value) => bus.preset(address, Width::W8, u64::from(value)).is_ok(),
        Word::Half(value) => bus.preset(address, Width::W16, u64::from(value)).is_ok(),
        Word::Whole(value) => bus.preset(address, Width::W32, u64::from(value)).is_ok(),
        Word::Double(value) => bus.preset(address, Width::W64, value).is_ok(),
    }
}

// Whether a word could be written.
fn write(bus: &mut AnyBus, address: u64, word: Word) -> bool
    requires { address < 2 ^ 32 }
{
    if bus.ready(1).is_err() {
        return false;
    }
    match word {
        Word::Byte(value) => bus.write(address, Width::W8, u64::from(value)).is_ok(),
        Word::Half(value) => bus.write(address, Width::W16, u64::from(value)).is_ok(),
        Word::Whole(value) => bus.write(address, Width::W32, u64::from(value)).is_ok(),
        Word::Double(value) => bus.write(address, Width::W64, value).is_ok(),
    }
}

// Whether a read of so many bits gives this.
fn gives(bus: &mut AnyBus, address: u64, width: Width, wanted: u64) -> bool
    requires { address < 2 ^ 32 }
{
    if bus.ready(1).is_err() {
        return false;
    }
    match bus.read(address, width) {
        Ok(found) => found == wanted,
        Err(_) => false,
    }
}

// Whether a read gives this word.
fn reads(bus: &mut AnyBus, address: u64, word: Word) -> bool
    requires { address < 2 ^ 32 }
{
    match word {
        Word::Byte(value) => gives(bus, address, Width::W8, u64::from(value)),
        Word::Half(value) => gives(bus, address, Width::W16, u64::from(value)),
        Word::Whole(value) => gives(bus, address, Width::W32, u64::from(value)),
        Word::Double(value) => gives(bus, address, Width::W64, value),
    }
}

// Whether the step could be done, and gave what it must.
fn went(bus: &mut AnyBus, step: Step) -> bool {
    match step {
        Step::Preset(address, word) => preset(bus, u64::from(address), word),
        Step::Write(address, word) => write(bus, u64::from(address), word),
        Step::Read(address, word) => reads(bus, u64::from(address), word),
    }
}

#[test]
fn a_memory_bus_gives_back_its_bytes(rt: HostRuntime) -> Result<(), Fail> {
    let mut bus = memory(rt.alloc())?;
    for (place, step) in STEPS.iter().enumerate() {
        assert!(rt; went(&mut bus, *step), "{place}");
    }
    Ok(())
}

#[test]
fn a_zero_bus_gives_zeros(rt: HostRuntime) -> Result<(), Fail> {
    let mut bus = zeros(rt.alloc())?;
    assert!(rt; went(&mut bus, Step::Preset(16, Word::Byte(1))));
    assert!(rt; went(&mut bus, Step::Write(16, Word::Byte(1))));
    assert!(rt; went(&mut bus, Step::Read(16, Word::Byte(0))));
    Ok(())
}

#[test]
fn a_listed_access_fails(rt: HostRuntime) -> Result<(), Fail> {
    let mut bus = failing(rt.alloc(), &[2])?;
    assert!(rt; went(&mut bus, Step::Read(16, Word::Byte(0))));
    assert!(rt; !went(&mut bus, Step::Write(16, Word::Byte(0))));
    assert!(rt; went(&mut bus, Step::Read(16, Word::Byte(0))));
    Ok(())
}

const LINES: &str = "read 0x40000000 32 0x00000003
write 0x123456789 8 0x0f
say 18446744073709551615
say true
";

fn events(alloc: Global) -> Result<Events, NoMemory>
    ensures { IfOk result (λ events. All HoldsWord events.list) }
{
    let mut events = Events::new(alloc);
    events.push(Event::Read {
        address: 0x4000_0000,
        width: Width::W32,
        value: 3,
    })?;
    events.push(Event::Write {
        address: 0x1_2345_6789,
        width: Width::W8,
        value: 15,
    })?;
    events.push(Event::Say(Said::Number(u64::MAX)))?;
    events.push(Event::Say(Said::Truth(true)))?;
    Ok(events)
}

#[test]
fn each_event_has_its_line(rt: HostRuntime) -> Result<(), Fail> {
    let events = events(rt.alloc())?;
    let mut sink = MemSink::new(rt.alloc());
    events_text(rt.alloc(), &events, &mut sink)?;
    assert!(rt; sink.written() == LINES.as_bytes());
    let mut failing = MemSink::new(rt.alloc());
    failing.fail(1)?;
    let written = events_text(rt.alloc(), &events, &mut failing);
    assert!(rt; matches!(written, Err(SinkFault::Failed)));
    Ok(())
}
