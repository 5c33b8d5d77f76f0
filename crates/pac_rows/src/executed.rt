use crate::harness::{
    Failing, Wanted, answers, answers_over, answers_where, files_of, listing, refusal, sink,
    zero_alone, zeros,
};
use pac_base::NoMemory;
use std::alloc::Global;
use std::test::Fail;

// What a register module without fields begins and ends with.
const BEGINS: &str =
    "use crate::generic::*; pub struct Spec; impl RegisterSpec for Spec { type Ux = u32; } impl Readable for Spec {} impl Writable for Spec { const ZERO_TO_MODIFY: u32 = 0x0; const ONE_TO_MODIFY: u32 = 0x0; } impl Resettable for Spec { const RESET_VALUE: u32 = 0x0; } impl R<Spec> { } impl W<Spec> { }";

// One peripheral with a control register, a gap, and a data register.
fn gapped(alloc: Global, gap: &str) -> Result<String, NoMemory> {
    Ok(format!(in alloc;
        "use crate::generic::*; pub struct Peripherals {{ pub T: Periph<t::RegisterBlock, 0x40000000>, }} pub mod t {{ use crate::generic::*; #[repr(C)] pub struct RegisterBlock {{ cr: Reg<cr::Spec>, _reserved0: [u8; {}], dr: Reg<dr::Spec>, }} impl RegisterBlock {{ pub fn cr(&self) -> &Reg<cr::Spec> {{ &self.cr }} pub fn dr(&self) -> &Reg<dr::Spec> {{ &self.dr }} }} pub mod cr {{ {} }} pub mod dr {{ {} }} }}",
        gap, BEGINS, BEGINS
    )?)
}

// A status register whose first flag is cleared by writing a one, and whose reset word is 3.
fn flagged(alloc: Global, gap: &str, place: &str) -> Result<String, NoMemory> {
    Ok(format!(in alloc;
        "use crate::generic::*; pub struct Peripherals {{ pub T: Periph<t::RegisterBlock, 0x40000000>, }} pub mod t {{ use crate::generic::*; #[repr(C)] pub struct RegisterBlock {{ {} sr: Reg<sr::Spec>, }} impl RegisterBlock {{ pub fn sr(&self) -> &Reg<sr::Spec> {{ &self.sr }} }} pub mod sr {{ use crate::generic::*; pub struct Spec; impl RegisterSpec for Spec {{ type Ux = u32; }} impl Readable for Spec {{}} impl Writable for Spec {{ const ZERO_TO_MODIFY: u32 = 0x0; const ONE_TO_MODIFY: u32 = 0x1; }} impl Resettable for Spec {{ const RESET_VALUE: u32 = 0x3; }} pub struct F0_F; pub struct F1_F; impl R<Spec> {{ pub fn f0(&self) -> BitReader<F0_F> {{ BitReader::new(((self.bits >> 0) & 0x1) != 0x0) }} pub fn f1(&self) -> BitReader<F1_F> {{ BitReader::new(((self.bits >> 1) & 0x1) != 0x0) }} }} impl W<Spec> {{ pub fn f0(&mut self) -> BitWriter1C<'_, Spec, F0_F> {{ BitWriter1C::new(self, 0) }} pub fn f1(&mut self) -> BitWriter<'_, Spec, F1_F> {{ BitWriter::new(self, {}) }} }} }} }}",
        gap, place
    )?)
}

// A register that is written alone, and one that is read alone.
const ONE_WAY: &[u8] =
    b"use crate::generic::*; pub struct Peripherals { pub T: Periph<t::RegisterBlock, 0x40000000>, } pub mod t { use crate::generic::*; #[repr(C)] pub struct RegisterBlock { a: Reg<a::Spec>, b: Reg<b::Spec>, } impl RegisterBlock { pub fn a(&self) -> &Reg<a::Spec> { &self.a } pub fn b(&self) -> &Reg<b::Spec> { &self.b } } pub mod a { use crate::generic::*; pub struct Spec; impl RegisterSpec for Spec { type Ux = u32; } impl Writable for Spec { const ZERO_TO_MODIFY: u32 = 0x0; const ONE_TO_MODIFY: u32 = 0x0; } impl Resettable for Spec { const RESET_VALUE: u32 = 0x0; } impl W<Spec> { } } pub mod b { use crate::generic::*; pub struct Spec; impl RegisterSpec for Spec { type Ux = u32; } impl Readable for Spec {} impl Resettable for Spec { const RESET_VALUE: u32 = 0x0; } impl R<Spec> { } } }";

/// Whether a script against a crate text answers so over a bus of the program.
fn executes(
    alloc: Global,
    krate: &[u8],
    script: &[u8],
    bus: &str,
    wanted: &Wanted<'_>,
) -> Result<bool, NoMemory> {
    answers(
        alloc,
        &["exec", "x.rs", "x.script", "--bus", bus],
        &[("x.rs", krate), ("x.script", script)],
        wanted,
    )
}

// Gaps in bytes, and the line that reads the register behind each.
const GAPS: &[(&str, &[u8])] = &[
    ("8", b"read 0x4000000c 32 0x00000000\n"),
    ("12", b"read 0x40000010 32 0x00000000\n"),
];

/// Whether a script against the text with this gap prints this.
fn prints_behind(alloc: Global, gap: &str, script: &[u8], output: &[u8]) -> Result<bool, NoMemory> {
    let text = gapped(alloc, gap)?;
    executes(alloc, text.as_bytes(), script, "zero", &listing(output))
}

#[test]
fn gap_edited(rt: HostRuntime) -> Result<(), Fail> {
    for &(gap, output) in GAPS {
        assert!(rt;
            prints_behind(rt.alloc(), gap, b"let d = T.dr().read();", output)?,
            "{gap}"
        );
    }
    Ok(())
}

// What stands in front of the status register, scripts against it, the bus, and the lines that they print.
const FLAGGED: &[(&str, &[u8], &str, &[u8])] = &[
    (
        "",
        b"T.sr().write(|w| w.f1().set_bit());",
        "zero",
        b"write 0x40000000 32 0x00000002\n",
    ),
    (
        "",
        b"T.sr().modify(|_, w| w.f0().clear_bit_by_one());",
        "memory",
        b"read 0x40000000 32 0x00000003\nwrite 0x40000000 32 0x00000003\n",
    ),
    (
        "",
        b"T.sr().modify(|_, w| w);",
        "memory",
        b"read 0x40000000 32 0x00000003\nwrite 0x40000000 32 0x00000002\n",
    ),
    (
        "",
        b"let a = T.sr().read();\nsay(a.f0().bit());\nT.sr().write_with_zero(|w| w.bits(5));\nlet b = T.sr().read();\nsay(b.bits());",
        "memory",
        b"read 0x40000000 32 0x00000003\nsay true\nwrite 0x40000000 32 0x00000005\nread 0x40000000 32 0x00000005\nsay 5\n",
    ),
    ("", b"// nothing\n\n", "zero", b""),
    (
        "",
        b"say(0x10);\nsay(!false);",
        "zero",
        b"say 16\nsay true\n",
    ),
    (
        "_reserved0: [u8; 4],",
        b"T.sr().write(|w| w.f1().set_bit());",
        "zero",
        b"write 0x40000004 32 0x00000002\n",
    ),
];

/// Whether a script against the status register behind this gap prints this.
fn prints(
    alloc: Global,
    gap: &str,
    script: &[u8],
    bus: &str,
    output: &[u8],
) -> Result<bool, NoMemory> {
    let text = flagged(alloc, gap, "1")?;
    executes(alloc, text.as_bytes(), script, bus, &listing(output))
}

#[test]
fn events_of_scripts(rt: HostRuntime) -> Result<(), Fail> {
    for (place, &(gap, script, bus, output)) in FLAGGED.iter().enumerate() {
        assert!(rt; prints(rt.alloc(), gap, script, bus, output)?, "{place}");
    }
    Ok(())
}

/// Whether a crate text is refused for this, at this byte.
fn refuses(alloc: Global, krate: &[u8], fault: &str, at: usize) -> Result<bool, NoMemory> {
    let fault = format!(in alloc; "crate text: {fault} at byte {at}")?;
    let wanted = refusal(9, fault.as_str());
    executes(alloc, krate, b"T.sr().reset();", "zero", &wanted)
}

/// Whether a writer past its register is refused where it stands.
fn refuses_a_writer(alloc: Global) -> Result<bool, NoMemory> {
    let text = flagged(alloc, "", "32")?;
    let at = text.as_str().find("pub fn f1(&mut self)").unwrap_or(0);
    refuses(alloc, text.as_bytes(), "literal out of range", at)
}

/// Whether a crate behind a crate is refused where it begins.
fn refuses_a_second(alloc: Global) -> Result<bool, NoMemory> {
    let text = flagged(alloc, "", "1")?;
    let twice = format!(in alloc; "{text}\n{text}")?;
    refuses(
        alloc,
        twice.as_bytes(),
        "syntax",
        text.len().saturating_add(1),
    )
}

// Texts that are no crate, and the byte at which each stops being one.
const NO_CRATES: &[(&[u8], usize)] = &[(b"", 0), (b"use crate::generic::*;", 22)];

#[test]
fn edited_text_refused(rt: HostRuntime) -> Result<(), Fail> {
    assert!(rt; refuses_a_writer(rt.alloc())?);
    assert!(rt; refuses_a_second(rt.alloc())?);
    for &(text, at) in NO_CRATES {
        assert!(rt; refuses(rt.alloc(), text, "syntax", at)?, "{at}");
    }
    Ok(())
}

// Scripts that are refused, with the fault.
const REFUSED: &[(&[u8], &str)] = &[
    (b"let a = T.a().read();", "script line 1: no such call"),
    (b"T.b().reset();", "script line 1: no such call"),
    (b"T.a().reset();\nT.a().reset()", "script line 2: syntax"),
    (b"T.a(0).reset();", "script line 1: wrong type"),
    (b"U.a().reset();", "script line 1: no such name"),
    (
        b"\nlet a = T.b().read();\nlet a = T.b().read();",
        "script line 3: name bound twice",
    ),
    (
        b"T.a().write(|w| w.bits(0x1_0000_0000));",
        "script line 1: literal out of range",
    ),
    (b"say(a.bits());", "script line 1: no such name"),
];

#[test]
fn directions_refused(rt: HostRuntime) -> Result<(), Fail> {
    for &(script, fault) in REFUSED {
        assert!(rt;
            executes(rt.alloc(), ONE_WAY, script, "zero", &refusal(10, fault))?,
            "{fault}"
        );
    }
    Ok(())
}

// Scripts over a bus that fails at an access, and an output whose write of this number fails, if it isn't 0: the
// status, the lines of the accesses before, and the fault.
const MIDWAY: &[(&[u8], u64, u64, u8, &[u8], &str)] = &[
    (
        b"let a = T.cr().read();\nT.cr().reset();\nlet b = T.dr().read();",
        1,
        0,
        5,
        b"",
        "the bus failed after 0 events",
    ),
    (
        b"let a = T.cr().read();\nT.cr().reset();\nlet b = T.dr().read();",
        2,
        0,
        5,
        b"read 0x40000000 32 0x00000000\n",
        "the bus failed after 1 events",
    ),
    (
        b"let a = T.cr().read();\nT.cr().reset();\nlet b = T.dr().read();",
        3,
        0,
        5,
        b"read 0x40000000 32 0x00000000\nwrite 0x40000000 32 0x00000000\n",
        "the bus failed after 2 events",
    ),
    (
        b"let a = T.cr().read();\nlet b = T.cr().read();",
        2,
        0,
        5,
        b"read 0x40000000 32 0x00000000\n",
        "the bus failed after 1 events",
    ),
    (
        b"let a = T.cr().read();\nlet b = T.cr().read();\nlet c = T.cr().read();",
        3,
        0,
        5,
        b"read 0x40000000 32 0x00000000\nread 0x40000000 32 0x00000000\n",
        "the bus failed after 2 events",
    ),
    (
        b"T.cr().reset();\nT.cr().reset();",
        2,
        1,
        4,
        b"",
        "cannot write",
    ),
];

/// Whether a script against a crate text answers so where something fails.
fn stops(
    alloc: Global,
    krate: &[u8],
    script: &[u8],
    failing: Failing,
    wanted: &Wanted<'_>,
) -> Result<bool, NoMemory> {
    answers_where(
        alloc,
        &["exec", "x.rs", "x.script"],
        &[("x.rs", krate), ("x.script", script)],
        failing,
        wanted,
    )
}

#[test]
fn bus_fails_midway(rt: HostRuntime) -> Result<(), Fail> {
    let text = gapped(rt.alloc(), "8")?;
    for &(script, access, write, status, output, fault) in MIDWAY {
        let failing = Failing {
            read: 0,
            write,
            access,
        };
        let wanted = Wanted {
            status,
            output,
            fault,
        };
        assert!(rt;
            stops(rt.alloc(), text.as_bytes(), script, failing, &wanted)?,
            "{fault}"
        );
    }
    Ok(())
}

/// Whether words are refused for want of a bus of bytes.
fn wants_memory(alloc: Global, words: &[&str], fault: &str) -> Result<bool, NoMemory> {
    let mut files = files_of(alloc, &[])?;
    let mut out = sink(alloc, 0)?;
    let mut buses = zero_alone(alloc, zeros(alloc)?)?;
    answers_over(
        alloc,
        words,
        &mut files,
        &mut out,
        &mut buses,
        &refusal(2, fault),
    )
}

// Words where no bus of bytes is lent, with the fault. The numbers of a sample are read before the bus is sought.
const WITHOUT_MEMORY: &[(&[&str], &str)] = &[
    (
        &["exec", "x.rs", "x.script", "--bus=memory"],
        "no bus of kind memory",
    ),
    (&["sample", "0", "1"], "no bus of kind memory"),
    (&["sample", "0", "0"], "bad number"),
];

#[test]
fn no_bus_of_the_kind(rt: HostRuntime) -> Result<(), Fail> {
    for &(words, fault) in WITHOUT_MEMORY {
        assert!(rt; wants_memory(rt.alloc(), words, fault)?, "{fault}");
    }
    Ok(())
}

/// Whether a script of spaces is too long. The crate text is as long, and is not.
fn is_too_long(alloc: Global) -> Result<bool, NoMemory> {
    let long = vec![in alloc; b' '; 67_108_865]?;
    let files = [("x.rs", long.as_slice()), ("x.script", long.as_slice())];
    let wanted = refusal(11, "x.script is longer than 67108864 bytes");
    answers(alloc, &["exec", "x.rs", "x.script"], &files, &wanted)
}

#[test]
fn limits_of_texts(rt: HostRuntime) -> Result<(), Fail> {
    assert!(rt; is_too_long(rt.alloc())?);
    Ok(())
}

/// A line so many times.
fn repeated(alloc: Global, line: &str, count: u32) -> Result<String, NoMemory> {
    let mut text = String::new(alloc);
    for _ in 0..count {
        text.push_str(line)?;
    }
    Ok(text)
}

#[test]
fn too_many_statements(rt: HostRuntime) -> Result<(), Fail> {
    let script = repeated(rt.alloc(), "say(1);\n", 65_537)?;
    let wanted = refusal(11, "too many statements: 65537");
    let text = gapped(rt.alloc(), "8")?;
    assert!(rt;
        executes(
            rt.alloc(),
            text.as_bytes(),
            script.as_bytes(),
            "zero",
            &wanted
        )?
    );
    Ok(())
}
