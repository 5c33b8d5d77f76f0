// The program `pac`: hands the words of the command line, the real files and streams, and buses of each
// kind that words can choose to the top call, and ends with its status.
#![tactic(auto)]

use pac_base::{Text, TextFault};
use pac_bus::{AnyBus, MemBus, ZeroBus};
use pac_cli::{BusKind, BusSlot, run_pac};
use pac_io::{StdFiles, StdSink};
use std::io::ErrorKind;
use std::process::ExitCode;
use std::rt::Env;
use std::{env, io};

/// The status of words that aren't UTF-8.
const BAD_WORDS: u8 = 2;

/// The status of want of memory for the words.
const NO_MEMORY: u8 = 1;

fn main(rt: HostRuntime) -> ExitCode {
    let words = match words(&rt) {
        Ok(words) => words,
        Err(status) => return ExitCode::from(status),
    };
    let alloc = rt.alloc();
    let (Ok(zeros), Ok(memory)) = (
        Box::new(alloc, ZeroBus::new(alloc)),
        Box::new(alloc, MemBus::new(alloc)),
    ) else {
        return ExitCode::from(NO_MEMORY);
    };
    let slots = [
        BusSlot {
            kind: BusKind::Zero,
            bus: AnyBus { bus: zeros },
        },
        BusSlot {
            kind: BusKind::Memory,
            bus: AnyBus { bus: memory },
        },
    ];
    let Ok(mut buses) = Vec::from_array(alloc, slots) else {
        return ExitCode::from(NO_MEMORY);
    };
    let mut files = StdFiles::new(&rt);
    let mut out = StdSink::new(io::writer(&rt));
    let mut err = StdSink::new(rt.stderr());
    let outcome = run_pac(
        rt.alloc(),
        words.as_slice(),
        &mut files,
        &mut out,
        &mut err,
        &mut buses,
    );
    ExitCode::from(outcome.status)
}

/// The words after the program's name, or the status where they can't be had.
fn words<R: Env + AllocGlobal>(rt: &R) -> Result<Vec<Text>, u8> {
    let args = env::args(rt).map_err(|error| match error.kind() {
        ErrorKind::OutOfMemory => NO_MEMORY,
        _ => BAD_WORDS,
    })?;
    let mut words = Vec::new(rt.alloc());
    for arg in args.skip(1) {
        let word = Text::new(rt.alloc(), arg.as_str().as_bytes()).map_err(|fault| match fault {
            TextFault::NotUtf8 => BAD_WORDS,
            TextFault::Memory => NO_MEMORY,
        })?;
        words.push(word).map_err(|_| NO_MEMORY)?;
    }
    Ok(words)
}
