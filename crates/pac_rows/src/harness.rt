use pac_base::{NoMemory, Text};
use pac_bus::{AnyBus, FailBus, MemBus, ZeroBus};
use pac_cli::{BusKind, BusSlot, Told, run_pac};
use pac_io::{MemFiles, MemSink};
use std::alloc::Global;

/// One register of one peripheral.
pub const ONE_REGISTER: &[u8] =
    b"<device><name>D</name><peripherals><peripheral><name>T</name><baseAddress>0x40000000</baseAddress><registers><register><name>CR</name><addressOffset>0</addressOffset></register></registers></peripheral></peripherals></device>";

/// A file: its name, and its bytes.
pub type File<'a> = (&'a str, &'a [u8]);

/// What a call of `pac` has to answer: its status, its output, and its fault line without the
/// `pac: ` in front and the line feed behind.
#[derive(Clone, Copy)]
pub struct Wanted<'a> {
    pub status: u8,
    pub output: &'a [u8],
    pub fault: &'a str,
}

/// What goes wrong around a call: which read of a file, which write of the output and which access to a
/// bus fails, each counted from 1. Where one is 0, none fails.
#[derive(Clone, Copy)]
pub struct Failing {
    pub read: u64,
    pub write: u64,
    pub access: u64,
}

/// Nothing goes wrong.
pub const NOTHING: Failing = Failing {
    read: 0,
    write: 0,
    access: 0,
};

/// Whether `pac` with these words, over these files and the buses of the program, answers so.
pub fn answers(
    alloc: Global,
    words: &[&str],
    files: &[File<'_>],
    wanted: &Wanted<'_>,
) -> Result<bool, NoMemory> {
    answers_where(alloc, words, files, NOTHING, wanted)
}

/// The same where something goes wrong.
pub fn answers_where(
    alloc: Global,
    words: &[&str],
    files: &[File<'_>],
    failing: Failing,
    wanted: &Wanted<'_>,
) -> Result<bool, NoMemory> {
    let mut files = files_of(alloc, files)?;
    files.fail(failing.read)?;
    let mut out = sink(alloc, failing.write)?;
    let mut buses = buses(alloc, failing.access)?;
    answers_over(alloc, words, &mut files, &mut out, &mut buses, wanted)
}

/// The same over these files, this output and these buses.
pub fn answers_over(
    alloc: Global,
    words: &[&str],
    files: &mut MemFiles,
    out: &mut MemSink,
    buses: &mut Vec<BusSlot<AnyBus>>,
    wanted: &Wanted<'_>,
) -> Result<bool, NoMemory> {
    let mut err = MemSink::new(alloc);
    let is_so = ends(alloc, words, files, out, &mut err, buses)? == (wanted.status, Told::Whole);
    let line = line(alloc, wanted.fault)?;
    Ok(is_so && out.written() == wanted.output && err.written() == line.as_bytes())
}

/// The status of a call, and what became of its fault line.
pub fn ends(
    alloc: Global,
    words: &[&str],
    files: &mut MemFiles,
    out: &mut MemSink,
    err: &mut MemSink,
    buses: &mut Vec<BusSlot<AnyBus>>,
) -> Result<(u8, Told), NoMemory> {
    let texts = texts(alloc, words)?;
    let outcome = run_pac(alloc, texts.as_slice(), files, out, err, buses);
    Ok((outcome.status, outcome.told))
}

/// Words as texts.
fn texts(alloc: Global, words: &[&str]) -> Result<Vec<Text>, NoMemory> {
    let mut texts = Vec::new(alloc);
    for word in words {
        match Text::new(alloc, word.as_bytes()) {
            Ok(text) => texts.push(text)?,
            Err(_) => return Err(NoMemory),
        }
    }
    Ok(texts)
}

/// Files in memory.
pub fn files_of(alloc: Global, rows: &[File<'_>]) -> Result<MemFiles, NoMemory> {
    let mut files = MemFiles::new(alloc);
    for &(name, bytes) in rows {
        files.add(name, bytes)?;
    }
    Ok(files)
}

/// A sink in memory, whose write of this number fails.
pub fn sink(alloc: Global, failing: u64) -> Result<MemSink, NoMemory> {
    let mut sink = MemSink::new(alloc);
    sink.fail(failing)?;
    Ok(sink)
}

/// The buses of the program; or, where an access is to fail, two that fail at it.
fn buses(alloc: Global, failing: u64) -> Result<Vec<BusSlot<AnyBus>>, NoMemory> {
    if failing == 0 {
        lent(alloc, zeros(alloc)?, memory(alloc)?)
    } else {
        lent(
            alloc,
            failing_bus(alloc, failing)?,
            failing_bus(alloc, failing)?,
        )
    }
}

/// Two buses, the first of them called zero, the other memory.
fn lent(alloc: Global, zero: AnyBus, memory: AnyBus) -> Result<Vec<BusSlot<AnyBus>>, NoMemory> {
    let mut buses = zero_alone(alloc, zero)?;
    buses.push(BusSlot {
        kind: BusKind::Memory,
        bus: memory,
    })?;
    Ok(buses)
}

/// One bus, called zero.
pub fn zero_alone(alloc: Global, bus: AnyBus) -> Result<Vec<BusSlot<AnyBus>>, NoMemory> {
    let mut buses = Vec::new(alloc);
    buses.push(BusSlot {
        kind: BusKind::Zero,
        bus,
    })?;
    Ok(buses)
}

/// A bus of zeros.
pub fn zeros(alloc: Global) -> Result<AnyBus, NoMemory> {
    Ok(AnyBus {
        bus: Box::new(alloc, ZeroBus::new(alloc))?,
    })
}

/// A bus of bytes.
fn memory(alloc: Global) -> Result<AnyBus, NoMemory> {
    Ok(AnyBus {
        bus: Box::new(alloc, MemBus::new(alloc))?,
    })
}

/// A bus that fails at this access.
fn failing_bus(alloc: Global, access: u64) -> Result<AnyBus, NoMemory> {
    let mut bus = FailBus::new(alloc);
    bus.fail(access)?;
    Ok(AnyBus {
        bus: Box::new(alloc, bus)?,
    })
}

/// The line that tells of a fault; none where there is none.
fn line(alloc: Global, fault: &str) -> Result<String, NoMemory> {
    if fault.is_empty() {
        return Ok(String::new(alloc));
    }
    Ok(format!(in alloc; "pac: {fault}\n")?)
}

/// The parts one behind the other.
pub fn joined(alloc: Global, parts: &[&[u8]]) -> Result<Vec<u8>, NoMemory> {
    let mut bytes = Vec::new(alloc);
    for part in parts {
        bytes.extend_from_slice(part)?;
    }
    Ok(bytes)
}

const BEGINS: &[u8] =
    b"<device><name>D</name><peripherals><peripheral><name>T</name><baseAddress>0x40000000</baseAddress><registers>";

const ENDS: &[u8] = b"</registers></peripheral></peripherals></device>";

/// A description with one peripheral `T` at 0x40000000 that holds these registers.
pub fn described(alloc: Global, registers: &[u8]) -> Result<Vec<u8>, NoMemory> {
    joined(alloc, &[BEGINS, registers, ENDS])
}

/// Whether this description is listed so.
pub fn lists(alloc: Global, description: &[u8], wanted: &Wanted<'_>) -> Result<bool, NoMemory> {
    answers(alloc, &["list", "x.svd"], &[("x.svd", description)], wanted)
}

/// Whether a description with these registers of `T` is listed so.
pub fn lists_registers(
    alloc: Global,
    registers: &[u8],
    wanted: &Wanted<'_>,
) -> Result<bool, NoMemory> {
    let description = described(alloc, registers)?;
    lists(alloc, description.as_slice(), wanted)
}

/// An output without a fault.
pub fn listing(output: &[u8]) -> Wanted<'_> {
    Wanted {
        status: 0,
        output,
        fault: "",
    }
}

/// A refusal with this status and fault, and no output.
pub fn refusal(status: u8, fault: &str) -> Wanted<'_> {
    Wanted {
        status,
        output: b"",
        fault,
    }
}
