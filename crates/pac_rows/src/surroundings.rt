use crate::harness::{
    Failing, ONE_REGISTER, answers, answers_where, described, ends, files_of, lists_registers,
    refusal, sink, zero_alone, zeros,
};
use pac_base::NoMemory;
use pac_cli::Told;
use std::alloc::Global;
use std::test::Fail;

const USAGE: &str =
    "usage: pac list SVD, generate SVD, exec CRATE SCRIPT, run SVD SCRIPT or sample NUMBER COUNT, with --patch P, --strict, --bus zero or memory";

// Words that are those of no command.
const WORDS: &[&[&str]] = &[
    &[],
    &[""],
    &["--"],
    &["--help"],
    &["-h"],
    &["help"],
    &["list"],
    &["lists", "x.svd"],
    &["list", "--help"],
    &["list", "x.svd", "-h"],
    &["list", "--strict"],
    &["list", "x.svd", "--strict", "--strict"],
    &["--strict", "list", "x.svd"],
    &["list", "x.svd", "--patch"],
    &["list", "x.svd", "--patch=p", "--patch=q"],
    &["exec", "x.rs", "s", "--patch=p"],
    &["list", "--", "x.svd", "--strict"],
    &["list", "x.svd", "y.svd"],
    &["generate"],
    &["--", "list", "x.svd"],
    &["run", "x.svd"],
    &["sample", "0"],
    &["sample", "0", "1", "2"],
    &["sample", "0", "1", "--bus=memory"],
    &["simple", "0", "1"],
    &["exec"],
    &["exec", "x.rs"],
    &["exec", "x.rs", "x.script", "--strict"],
    &["exec", "x.rs", "x.script", "--bus"],
    &["exec", "x.rs", "x.script", "--bus", "device"],
    &["exec", "x.rs", "x.script", "--bus=mem"],
    &["exec", "x.rs", "x.script", "--bus=zero", "--bus=zero"],
];

#[test]
fn words_of_no_command(rt: HostRuntime) -> Result<(), Fail> {
    for (place, &words) in WORDS.iter().enumerate() {
        let wanted = refusal(2, USAGE);
        assert!(rt; answers(rt.alloc(), words, &[], &wanted)?, "{place}");
    }
    Ok(())
}

// Words that name a file, and the name.
const FILE_WORDS: &[(&[&str], &str)] = &[
    (&["generate", "x.svd"], "cannot read x.svd"),
    (&["list", "x.svd"], "cannot read x.svd"),
    (&["list", "--strict", "x.svd"], "cannot read x.svd"),
    (&["list", "--", "x.svd"], "cannot read x.svd"),
    (&["list", "--", "--strict"], "cannot read --strict"),
    (&["list", "help"], "cannot read help"),
    (&["list", "-"], "cannot read -"),
    (&["list", ""], "cannot read "),
    (&["exec", "x.rs", "x.script"], "cannot read x.rs"),
    (
        &["exec", "--bus=memory", "x.rs", "x.script"],
        "cannot read x.rs",
    ),
    (
        &["exec", "x.rs", "--bus", "zero", "x.script"],
        "cannot read x.rs",
    ),
    (&["exec", "--", "--bus", "zero"], "cannot read --bus"),
    (
        &["run", "x.svd", "x.script", "--bus=memory"],
        "cannot read x.svd",
    ),
];

#[test]
fn words_that_name_a_file(rt: HostRuntime) -> Result<(), Fail> {
    for &(words, fault) in FILE_WORDS {
        let wanted = refusal(3, fault);
        assert!(rt; answers(rt.alloc(), words, &[], &wanted)?, "{fault}");
    }
    Ok(())
}

// Which read or which write of listing one register fails, with the status and the fault.
const FAILING: &[(u64, u64, u8, &str)] = &[
    (1, 0, 3, "cannot read x.svd"),
    (0, 1, 4, "cannot write"),
];

#[test]
fn a_read_or_a_write_that_fails(rt: HostRuntime) -> Result<(), Fail> {
    for &(read, write, status, fault) in FAILING {
        let failing = Failing {
            read,
            write,
            access: 0,
        };
        assert!(rt;
            answers_where(
                rt.alloc(),
                &["list", "x.svd"],
                &[("x.svd", ONE_REGISTER)],
                failing,
                &refusal(status, fault)
            )?,
            "{fault}"
        );
    }
    Ok(())
}

/// Whether a call over no files, whose error output fails, ends with the status and tells that.
fn tells_nothing(alloc: Global) -> Result<bool, NoMemory> {
    let mut files = files_of(alloc, &[])?;
    let mut out = sink(alloc, 0)?;
    let mut err = sink(alloc, 1)?;
    let mut buses = zero_alone(alloc, zeros(alloc)?)?;
    let words = ["list", "x.svd"];
    let end = ends(alloc, &words, &mut files, &mut out, &mut err, &mut buses)?;
    Ok(end == (3, Told::Failed) && err.written().is_empty())
}

#[test]
fn an_error_output_that_fails(rt: HostRuntime) -> Result<(), Fail> {
    assert!(rt; tells_nothing(rt.alloc())?);
    Ok(())
}

// An array of registers whose listing goes out in more than one write.
const LONG: &[u8] =
    b"<register><name>R[%s]</name><addressOffset>0</addressOffset><dim>3000</dim><dimIncrement>4</dimIncrement></register>";

/// Whether a long listing whose second write fails has its begin in the output, and a line in the error output.
fn begins(alloc: Global) -> Result<bool, NoMemory> {
    let description = described(alloc, LONG)?;
    let mut files = files_of(alloc, &[("x.svd", description.as_slice())])?;
    let mut out = sink(alloc, 2)?;
    let mut err = sink(alloc, 0)?;
    let mut buses = zero_alone(alloc, zeros(alloc)?)?;
    let words = ["list", "x.svd"];
    let end = ends(alloc, &words, &mut files, &mut out, &mut err, &mut buses)?;
    Ok(
        end == (4, Told::Whole)
            && err.written() == b"pac: cannot write\n".as_slice()
            && out
                .written()
                .starts_with(b"T.r[0] 0x40000000 32 rw 0x00000000\n"),
    )
}

#[test]
fn sinks_whose_second_write_fails(rt: HostRuntime) -> Result<(), Fail> {
    assert!(rt; begins(rt.alloc())?);
    Ok(())
}

/// Whether a description of spaces is too long.
fn is_too_long(alloc: Global) -> Result<bool, NoMemory> {
    let long = vec![in alloc; b' '; 67_108_865]?;
    let wanted = refusal(11, "x.svd is longer than 67108864 bytes");
    answers(
        alloc,
        &["list", "x.svd"],
        &[("x.svd", long.as_slice())],
        &wanted,
    )
}

#[test]
fn limits(rt: HostRuntime) -> Result<(), Fail> {
    assert!(rt; is_too_long(rt.alloc())?);
    Ok(())
}

// An array of 65,536 registers in an array of five clusters.
const MANY: &[u8] =
    b"<cluster><name>C[%s]</name><addressOffset>0</addressOffset><dim>5</dim><dimIncrement>0x40000</dimIncrement><register><name>R[%s]</name><addressOffset>0</addressOffset><dim>65536</dim><dimIncrement>4</dimIncrement></register></cluster>";

#[test]
fn too_many_registers(rt: HostRuntime) -> Result<(), Fail> {
    let wanted = refusal(11, "too many registers: 327680");
    assert!(rt; lists_registers(rt.alloc(), MANY, &wanted)?);
    Ok(())
}
