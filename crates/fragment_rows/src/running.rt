ghost use Rattle.std.specs.Prelude.{◌≡◌, None};
ghost use Rattle.frag_sem.specs.ScriptTyping.{script_fault};
ghost use Rattle.frag_sem.specs.TextSurface.{text_surface};
ghost use Rattle.frag_tree.specs.Trees.{crate_tree};

use crate::buses::{failing, memory, zeros};
use crate::crate_text::EXAMPLE;
use crate::texts::{CHANNELS, OVERLAID, TIMERS, of_version_two, typed, typed_script, worked_array};
use frag_eval::{BusFault, Ready, Role, Running, Stage, begin, prepare, run, step};
use frag_tree::{Event, Events, Said};
use frag_types::{CrateFault, TypedCrate, TypedScript};
use pac_base::{NoMemory, Width};
use pac_bus::{AnyBus, Bus};
use std::alloc::Global;
use std::test::Fail;

// An event that must come: an access with its address, its bits and its word, or what is said.
#[derive(Clone, Copy)]
enum Row {
    Read(u64, u32, u64),
    Write(u64, u32, u64),
    Truth(bool),
    Number(u64),
}

// A script, and its events.
type Run = (&'static [u8], &'static [Row]);

// Scripts against the worked text, and their events over a bus of bytes.
const RUNS: &[Run] = &[
    // a one clears the first field, so a write starts with it at 0
    (
        b"T.sr().write(|w| w.f1().set_bit());",
        &[Row::Write(0x4000_0000, 32, 2)],
    ),
    (
        b"T.sr().modify(|_, w| w.f1().clear_bit());",
        &[
            Row::Read(0x4000_0000, 32, 3),
            Row::Write(0x4000_0000, 32, 0),
        ],
    ),
    (
        b"T.sr().modify(|r, w| w.f1().bit(!r.f1().bit()).f0().clear_bit_by_one());",
        &[
            Row::Read(0x4000_0000, 32, 3),
            Row::Write(0x4000_0000, 32, 1),
        ],
    ),
    // it reads, binds and says
    (
        b"let s = T.sr().read();\nsay(s.f0().bit_is_set());\nsay(s.bits());\nsay(!!!s.f1().bit());",
        &[
            Row::Read(0x4000_0000, 32, 3),
            Row::Truth(true),
            Row::Number(3),
            Row::Truth(false),
        ],
    ),
    (
        b"T.sr().reset();\nT.sr().write_with_zero(|w| w.bits(0xff));",
        &[
            Row::Write(0x4000_0000, 32, 3),
            Row::Write(0x4000_0000, 32, 0xff),
        ],
    ),
    (b"say(7);", &[Row::Number(7)]),
];

// Scripts against the text of version 2, whose reset word is 0x113 and whose bit 4 is cleared by a one.
const INDEXED_RUNS: &[Run] = &[
    (
        b"D.en().write(|w| w.ch(7).set_bit().lv(3).bits(2));",
        &[Row::Write(0x5000_0000, 32, 0x1200_0103)],
    ),
    (
        b"let s = D.en().read();\nsay(s.ch(1).bit());\nsay(s.ch(3).bit_is_clear());\nsay(s.lv(1).bits());\nsay(s.lv(0).bits());",
        &[
            Row::Read(0x5000_0000, 32, 0x113),
            Row::Truth(true),
            Row::Truth(true),
            Row::Number(1),
            Row::Number(3),
        ],
    ),
    (
        b"D.en().modify(|r, w| w.lv(2).bits(r.lv(0).bits()).ch(0).bit(!r.ch(0).bit()));",
        &[
            Row::Read(0x5000_0000, 32, 0x113),
            Row::Write(0x5000_0000, 32, 0x3_0102),
        ],
    ),
    // a number is cut to the bits of its field
    (
        b"D.en().write(|w| w.lv(1).bits(254));",
        &[Row::Write(0x5000_0000, 32, 0x203)],
    ),
];

// Scripts against registers over the same bytes: the reset word of each that is called is set once, in the
// order of the first calls.
const OVERLAID_RUNS: &[Run] = &[
    (
        b"let a = T.a().read();\nlet b = T.b().read();\nlet c = T.a().read();",
        &[
            Row::Read(0x4000_0000, 32, 0x1122_33ff),
            Row::Read(0x4000_0000, 8, 0xff),
            Row::Read(0x4000_0000, 32, 0x1122_33ff),
        ],
    ),
    (
        b"let b = T.b().read();\nlet a = T.a().read();",
        &[
            Row::Read(0x4000_0000, 8, 0x44),
            Row::Read(0x4000_0000, 32, 0x1122_3344),
        ],
    ),
    // little end first
    (
        b"T.a().write_with_zero(|w| w.bits(0xa1b2_c3d4));\nlet b = T.b().read();\nlet h = T.h().read();\nT.b().write_with_zero(|w| w.bits(0x5a));\nlet a = T.a().read();\nlet q = T.q().read();",
        &[
            Row::Write(0x4000_0000, 32, 0xa1b2_c3d4),
            Row::Read(0x4000_0000, 8, 0xd4),
            Row::Read(0x4000_0002, 16, 0xa1b2),
            Row::Write(0x4000_0000, 8, 0x5a),
            Row::Read(0x4000_0000, 32, 0xa1b2_c35a),
            Row::Read(0x4000_0000, 64, 0x0102_0304_a1b2_c35a),
        ],
    ),
];

fn is_row(event: &Event, row: Row) -> bool {
    match (event, row) {
        (
            Event::Read {
                address,
                width,
                value,
            },
            Row::Read(at, bits, word),
        ) => { *address == at && width.bits() == bits && *value == word }
        (
            Event::Write {
                address,
                width,
                value,
            },
            Row::Write(at, bits, word),
        ) => { *address == at && width.bits() == bits && *value == word }
        (Event::Say(Said::Truth(value)), Row::Truth(truth)) => *value == truth,
        (Event::Say(Said::Number(value)), Row::Number(number)) => *value == number,
        _ => false,
    }
}

fn are_rows(events: &Events, rows: &[Row]) -> bool {
    events.len() == rows.len()
        && events
            .as_slice()
            .iter()
            .zip(rows.iter())
            .all(|(event, row)| is_row(event, *row))
}

// Runs a script to its end.
fn ran(
    alloc: Global,
    krate: &TypedCrate,
    script: TypedScript,
    bus: &mut AnyBus,
) -> Result<Result<Events, BusFault>, NoMemory>
    requires { script_fault (text_surface (crate_tree krate.now)) script ≡ None }
{
    match prepare(alloc, krate, script, bus) {
        Ok(ready) => Ok(run(ready, bus)),
        Err(back) => Err(back.fault),
    }
}

fn ends(ran: &Result<Result<Events, BusFault>, NoMemory>, rows: &[Row]) -> bool {
    match ran {
        Ok(Ok(events)) => are_rows(events, rows),
        _ => false,
    }
}

// Whether the script has these events over this bus.
fn gives(alloc: Global, krate: &TypedCrate, script: &[u8], bus: &mut AnyBus, rows: &[Row]) -> bool {
    match typed_script(alloc, krate, script) {
        Ok(script) => ends(&ran(alloc, krate, script, bus), rows),
        Err(_) => false,
    }
}

// Whether the script has these events over a bus of bytes.
fn gives_over_bytes(alloc: Global, krate: &TypedCrate, script: &[u8], rows: &[Row]) -> bool {
    match memory(alloc) {
        Ok(mut bus) => gives(alloc, krate, script, &mut bus, rows),
        Err(_) => false,
    }
}

// The place of the first script that hasn't its events, at once or by steps; how many there are where all have.
fn first_wrong(alloc: Global, text: &[u8], runs: &[Run]) -> Result<usize, CrateFault> {
    let krate = typed(alloc, text)?;
    for (place, &(script, rows)) in runs.iter().enumerate() {
        if !gives_over_bytes(alloc, &krate, script, rows)
            || !gives_by_steps(alloc, &krate, script, rows)
        {
            return Ok(place);
        }
    }
    Ok(runs.len())
}

// Crate texts, with their scripts.
const TEXTS: &[(&[u8], &[Run])] = &[
    (EXAMPLE, RUNS),
    (CHANNELS, INDEXED_RUNS),
    (OVERLAID, OVERLAID_RUNS),
];

#[test]
fn events_of_scripts(rt: HostRuntime) -> Result<(), Fail> {
    for &(text, runs) in TEXTS {
        let wrong = first_wrong(rt.alloc(), text, runs)?;
        assert!(rt; wrong == runs.len(), "{wrong}");
    }
    Ok(())
}

#[test]
fn version_two_keeps_the_events(rt: HostRuntime) -> Result<(), Fail> {
    let text = of_version_two(rt.alloc(), EXAMPLE)?;
    let wrong = first_wrong(rt.alloc(), text.as_slice(), RUNS)?;
    assert!(rt; wrong == RUNS.len(), "{wrong}");
    Ok(())
}

const ARRAY_RUNS: &[Run] = &[(
    b"T.sr().write(|w| w.f1(2).set_bit());",
    &[Row::Write(0x4000_0000, 32, 0x202)],
)];

const ZERO_RUNS: &[Run] = &[(
    b"T.sr().reset();\nlet s = T.sr().read();\nsay(s.bits());",
    &[
        Row::Write(0x4000_0000, 32, 3),
        Row::Read(0x4000_0000, 32, 0),
        Row::Number(0),
    ],
)];

// Whether the scripts have these events over a bus of zeros.
fn give_over_zeros(alloc: Global, text: &[u8], runs: &[Run]) -> Result<bool, CrateFault> {
    let krate = typed(alloc, text)?;
    let Ok(mut bus) = zeros(alloc) else {
        return Ok(false);
    };
    for &(script, rows) in runs {
        if !gives(alloc, &krate, script, &mut bus, rows) {
            return Ok(false);
        }
    }
    Ok(true)
}

#[test]
fn an_array_in_the_worked_text(rt: HostRuntime) -> Result<(), Fail> {
    let text = worked_array(rt.alloc(), b"8")?;
    assert!(rt; give_over_zeros(rt.alloc(), text.as_slice(), ARRAY_RUNS)?);
    Ok(())
}

#[test]
fn zeros_whatever_is_written(rt: HostRuntime) -> Result<(), Fail> {
    assert!(rt; give_over_zeros(rt.alloc(), EXAMPLE, ZERO_RUNS)?);
    Ok(())
}

// What was made before the third access, which fails.
const BEFORE: &[Row] = &[
    Row::Read(0x4000_0000, 32, 0),
    Row::Truth(false),
    Row::Write(0x4000_0000, 32, 3),
];

const STOPPED: &[u8] =
    b"let s = T.sr().read();\nsay(s.f1().bit());\nT.sr().reset();\nT.sr().reset();\nT.sr().reset();";

fn stopped(ran: &Result<Result<Events, BusFault>, NoMemory>) -> bool {
    match ran {
        Ok(Err(fault)) => fault.done == 3 && are_rows(&fault.events, BEFORE),
        _ => false,
    }
}

// Whether the script stops at the third access.
fn stops(alloc: Global, krate: &TypedCrate, bus: &mut AnyBus) -> bool {
    match typed_script(alloc, krate, STOPPED) {
        Ok(script) => stopped(&ran(alloc, krate, script, bus)),
        Err(_) => false,
    }
}

#[test]
fn a_bus_that_fails_at_a_write(rt: HostRuntime) -> Result<(), Fail> {
    let krate = typed(rt.alloc(), EXAMPLE)?;
    let mut bus = failing(rt.alloc(), &[3])?;
    assert!(rt; stops(rt.alloc(), &krate, &mut bus));
    Ok(())
}

// The run behind its next access, if the bus doesn't fail.
fn stepped(running: Running, bus: &mut AnyBus) -> Option<Stage> {
    if bus.ready(1).is_err() {
        return None;
    }
    match step(running, bus) {
        Ok(stage) => Some(stage),
        Err(_) => None,
    }
}

// The run behind so many accesses, made one by one, if there are as many and the bus doesn't fail.
fn behind(ready: Ready, bus: &mut AnyBus, accesses: usize) -> Option<Stage> {
    let mut stage = begin(ready);
    for _ in 0..accesses {
        match stage {
            Stage::Running(running) => stage = stepped(running, bus)?,
            Stage::Done(_) => return None,
        }
    }
    Some(stage)
}

fn is_done(stage: &Option<Stage>, rows: &[Row]) -> bool {
    match stage {
        Some(Stage::Done(events)) => are_rows(events, rows),
        _ => false,
    }
}

fn accesses(rows: &[Row]) -> usize {
    rows.iter()
        .filter(|row| matches!(row, Row::Read(..) | Row::Write(..)))
        .count()
}

// Whether all is done behind the accesses of these events, made one by one over a bus of bytes, with these events.
fn gives_by_steps(alloc: Global, krate: &TypedCrate, script: &[u8], rows: &[Row]) -> bool {
    let Ok(mut bus) = memory(alloc) else {
        return false;
    };
    let Ok(script) = typed_script(alloc, krate, script) else {
        return false;
    };
    match prepare(alloc, krate, script, &mut bus) {
        Ok(ready) => is_done(&behind(ready, &mut bus, accesses(rows)), rows),
        Err(_) => false,
    }
}

// The vendor's script, and its events.
const VENDOR: &[u8] = b"TIM2.cr1().modify(|_, w| w.cen().enabled().ckd().bits(2));
let s = TIM3.sr().read();
say(s.uif().bit_is_set());
TIM3.sr().write(|w| w.uif().clear_bit());
TIM2.ccr(1).write(|w| w.bits(0x1f4));
";

const VENDOR_ROWS: &[Row] = &[
    Row::Read(0x4000_0000, 16, 0),
    Row::Write(0x4000_0000, 16, 0x201),
    Row::Read(0x4000_0410, 32, 0),
    Row::Truth(false),
    Row::Write(0x4000_0410, 32, 0),
    Row::Write(0x4000_0038, 32, 0x1f4),
];

// Whether five steps make the vendor's events, the third of them what is said too.
fn gives_in_five(ready: Ready, bus: &mut AnyBus) -> bool {
    let mut stage = begin(ready);
    for made in [0, 1, 2, 4, 5] {
        let Stage::Running(running) = stage else {
            return false;
        };
        if running.made().len() != made {
            return false;
        }
        let Some(next) = stepped(running, bus) else {
            return false;
        };
        stage = next;
    }
    is_done(&Some(stage), VENDOR_ROWS)
}

fn vendors_events(alloc: Global, krate: &TypedCrate, bus: &mut AnyBus) -> bool {
    match typed_script(alloc, krate, VENDOR) {
        Ok(script) => match prepare(alloc, krate, script, bus) {
            Ok(ready) => gives_in_five(ready, bus),
            Err(_) => false,
        },
        Err(_) => false,
    }
}

#[test]
fn the_vendors_events_in_five_steps(rt: HostRuntime) -> Result<(), Fail> {
    let krate = typed(rt.alloc(), TIMERS)?;
    let mut bus = zeros(rt.alloc())?;
    assert!(rt; vendors_events(rt.alloc(), &krate, &mut bus));
    Ok(())
}

// Whether the run stands before the write of the `modify` on line 2.
fn is_before_write(running: &Running) -> bool {
    running.role() == Role::ModifyWrite && running.line() == 2 && running.made().len() == 1
}

// The run as it comes back from an access that fails.
fn refused(running: Running, bus: &mut AnyBus) -> Option<Running> {
    if bus.ready(1).is_err() {
        return None;
    }
    match step(running, bus) {
        Ok(_) => None,
        Err(back) => Some(back.state),
    }
}

// The run behind a first access and two that fail.
fn twice_refused(ready: Ready, bus: &mut AnyBus) -> Option<Running> {
    match begin(ready) {
        Stage::Running(first) => match stepped(first, bus)? {
            Stage::Running(second) => refused(refused(second, bus)?, bus),
            Stage::Done(_) => None,
        },
        Stage::Done(_) => None,
    }
}

// Whether the second access fails twice, leaves the run before its write, and can then be made.
fn goes_on(ready: Ready, bus: &mut AnyBus) -> bool {
    match twice_refused(ready, bus) {
        Some(running) => {
            is_before_write(&running) && matches!(stepped(running, bus), Some(Stage::Done(_)))
        }
        None => false,
    }
}

fn goes_on_behind(alloc: Global, krate: &TypedCrate, bus: &mut AnyBus) -> bool {
    match typed_script(alloc, krate, b"\nT.sr().modify(|_, w| w.f1().set_bit());") {
        Ok(script) => match prepare(alloc, krate, script, bus) {
            Ok(ready) => goes_on(ready, bus),
            Err(_) => false,
        },
        Err(_) => false,
    }
}

#[test]
fn a_run_goes_on_behind_a_failed_access(rt: HostRuntime) -> Result<(), Fail> {
    let krate = typed(rt.alloc(), EXAMPLE)?;
    let mut bus = failing(rt.alloc(), &[2, 3])?;
    assert!(rt; goes_on_behind(rt.alloc(), &krate, &mut bus));
    Ok(())
}
