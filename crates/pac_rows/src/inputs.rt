use crate::harness::files_of;
use pac_base::{NoMemory, Text};
use pac_fault::fault_line;
use pac_inputs::{Wanted, gather};
use pac_io::{MemFiles, MemSink, Sink, SinkFault};
use std::alloc::Global;
use std::test::Fail;

// Two files, of which the second may have three bytes: what the second holds, where it is there, the read that fails,
// and the inputs, or the line of the fault.
const TWO_FILES: &[(Option<&str>, u64, &str)] = &[
    (Some("abc"), 3, "first\nabc\n"),
    (Some(""), 3, "first\n\n"),
    (Some("abcd"), 3, "pac: b is longer than 3 bytes\n"),
    (None, 3, "pac: cannot read b\n"),
    (Some("abc"), 2, "pac: cannot read b\n"),
    (Some("abcd"), 1, "pac: cannot read a\n"),
];

/// The two files; one alone where the second isn't there.
fn files(alloc: Global, second: Option<&str>) -> Result<MemFiles, NoMemory> {
    match second {
        Some(second) => files_of(alloc, &[("a", b"first"), ("b", second.as_bytes())]),
        None => files_of(alloc, &[("a", b"first")]),
    }
}

/// The two names, each with its limit.
fn names(alloc: Global) -> Result<Vec<Wanted>, NoMemory> {
    let mut names = Vec::new(alloc);
    for (name, limit) in [("a", 8), ("b", 3)] {
        match Text::new(alloc, name.as_bytes()) {
            Ok(name) => names.push(Wanted { name, limit })?,
            Err(_) => return Err(NoMemory),
        }
    }
    Ok(names)
}

/// Writes the inputs, each on a line, or the line of the fault, where a read fails.
fn gathers(
    alloc: Global,
    second: Option<&str>,
    failing: u64,
    sink: &mut MemSink,
) -> Result<(), SinkFault> {
    let mut files = files(alloc, second)?;
    files.fail(failing)?;
    match gather(alloc, names(alloc)?, &mut files) {
        Ok(inputs) => {
            for bytes in inputs.as_slice() {
                sink.write_all(bytes.as_slice())?;
                sink.write_all(b"\n")?;
            }
            Ok(())
        }
        Err(fault) => fault_line(alloc, &fault)?.finish(sink),
    }
}

/// Whether the two files come to this where a read fails.
fn come_to(
    alloc: Global,
    second: Option<&str>,
    failing: u64,
    wanted: &str,
) -> Result<bool, SinkFault> {
    let mut told = MemSink::new(alloc);
    gathers(alloc, second, failing, &mut told)?;
    Ok(told.written() == wanted.as_bytes())
}

#[test]
fn two_files(rt: HostRuntime) -> Result<(), Fail> {
    for &(second, failing, wanted) in TWO_FILES {
        assert!(rt; come_to(rt.alloc(), second, failing, wanted)?, "{wanted}");
    }
    Ok(())
}
