use crate::texts::{CHANNELS, VALUED, typed, typed_script, worked_array};
use frag_script::ScriptFault;
use frag_script::ScriptTyping::{
    self, IndexRange, LiteralRange, NoSuchCall, NoSuchName, Rebound, WrongType,
};
use frag_types::{CrateFault, TypedCrate};
use std::alloc::Global;
use std::test::Fail;

// A script, with the first line that doesn't type, and its kind.
type Unfit<'a> = (&'a [u8], u32, ScriptTyping);

// Scripts against the text of version 1, with the first line that doesn't type, and its kind.
const UNFIT: &[Unfit<'static>] = &[
    // names that stand for nothing
    (b"U.a().reset();", 1, NoSuchName),
    (b"say(s.bits());", 1, NoSuchName),
    (b"say(s.bits());\nlet s = T.a().read();", 1, NoSuchName),
    (b"T.a().modify(|_, w| w.bits(r.bits()));", 1, NoSuchName),
    // calls that aren't there
    (b"T.b().reset();", 1, NoSuchCall),
    (b"T.a().write(|w| w.f().set_bit());", 1, NoSuchCall),
    (b"T.a().write(|w| w.m().on());", 1, NoSuchCall),
    (b"\nT.c(0).d().reset();", 2, NoSuchCall),
    // an index too many or too few, and values of other types
    (b"T.a(0).reset();", 1, WrongType),
    (b"T.y().reset();", 1, WrongType),
    (b"T.a().write(|w| w.e(0).set_bit());", 1, WrongType),
    (b"T.a().write(|w| w.bits(true));", 1, WrongType),
    (b"T.a().write(|w| w.e().bit(1));", 1, WrongType),
    (b"say(!7);", 1, WrongType),
    (
        b"let s = T.a().read();\nsay(s.e().bit() as u8);",
        2,
        WrongType,
    ),
    // indexes
    (b"T.y(2).reset();", 1, IndexRange),
    (b"let s = T.c(2).d().read();", 1, IndexRange),
    // numbers
    (b"T.a().write(|w| w.bits(0x100));", 1, LiteralRange),
    (b"T.a().write(|w| w.m().bits(256));", 1, LiteralRange),
    // names that are bound already
    (b"let s = T.a().read();\nlet s = T.a().read();", 2, Rebound),
    (b"let T = T.a().read();", 1, Rebound),
    (b"let r = T.a().read();", 1, Rebound),
    (b"let w = T.a().read();", 1, Rebound),
    // of two faults on one line the left one
    (
        b"T.a().write(|w| w.f().set_bit().bits(0x100));",
        1,
        NoSuchCall,
    ),
    (
        b"T.a().write(|w| w.bits(0x100).f().set_bit());",
        1,
        LiteralRange,
    ),
    (
        b"T.a().write(|w| w.e().bit(1).m().bits(256));",
        1,
        WrongType,
    ),
    (
        b"T.a().write(|w| w.m().bits(256).e().bit(1));",
        1,
        LiteralRange,
    ),
    (b"T.y(2).write(|w| w.bits(true));", 1, IndexRange),
    (b"let T = U.a().read();", 1, Rebound),
    (b"let s = U.y(2).read();", 1, NoSuchName),
    // of two lines the first
    (b"say(!7);\nsay(s.bits());", 1, WrongType),
];

// Scripts that type.
const FIT: &[&[u8]] = &[
    b"let s = T.a().read();\nlet t = S.c(1).d().read();\nsay(s.e().is_on());\nsay(t.bits());",
    b"T.y(1).write(|w| w.bits(0xff).m().bits(255).m().fast().e().on());",
    b"T.x().modify(|r, w| w.e().bit(!r.e().bit()).m().bits(r.m().bits()));",
];

// Whether the line is the first that doesn't type, for this kind.
fn unfit(alloc: Global, krate: &TypedCrate, text: &[u8], line: u32, kind: ScriptTyping) -> bool {
    match typed_script(alloc, krate, text) {
        Err(
            ScriptFault::Typing {
                line: at,
                kind: found,
            },
        ) => at == line && found == kind,
        _ => false,
    }
}

// Scripts against the text of version 2, with the first line that doesn't type, and its kind.
const UNFIT_INDEXED: &[Unfit<'static>] = &[
    (b"D.en().write(|w| w.ch(8).set_bit());", 1, IndexRange),
    (b"D.en().write(|w| w.lv().bits(3));", 1, WrongType),
    (
        b"let s = D.en().read();\nsay(s.lv(4).bits());",
        2,
        IndexRange,
    ),
    (b"let s = D.en().read();\nsay(s.ch().bit());", 2, WrongType),
    // of two faults on one line the left one
    (b"D.en().write(|w| w.ch(8).toggle_bit());", 1, IndexRange),
    (
        b"D.en().write(|w| w.cg(8).set_bit().ch(8).set_bit());",
        1,
        NoSuchCall,
    ),
];

// Scripts against the text of version 2 that type.
const FIT_INDEXED: &[&[u8]] = &[b"D.en().write(|w| w.ch(7).set_bit().lv(3).bits(3));"];

// The place of the first script that is otherwise against the crate text, those that type behind those that don't; how
// many there are where all are so.
fn first_wrong(
    alloc: Global,
    text: &[u8],
    unfit_rows: &[Unfit<'static>],
    fit: &[&'static [u8]],
) -> Result<usize, CrateFault> {
    let krate = typed(alloc, text)?;
    let mut count: usize = 0;
    for &(script, line, kind) in unfit_rows {
        if !unfit(alloc, &krate, script, line, kind) {
            return Ok(count);
        }
        count = count.saturating_add(1);
    }
    for &script in fit {
        if typed_script(alloc, &krate, script).is_err() {
            return Ok(count);
        }
        count = count.saturating_add(1);
    }
    Ok(count)
}

// Crate texts, with scripts that don't type and others that do.
const TEXTS: &[(&[u8], &[Unfit<'static>], &[&[u8]])] = &[
    (VALUED, UNFIT, FIT),
    (CHANNELS, UNFIT_INDEXED, FIT_INDEXED),
];

#[test]
fn each_fault_of_a_script(rt: HostRuntime) -> Result<(), Fail> {
    for &(text, rows, fit) in TEXTS {
        let wrong = first_wrong(rt.alloc(), text, rows, fit)?;
        assert!(rt; wrong == rows.len().saturating_add(fit.len()), "{wrong}");
    }
    Ok(())
}

const NINTH: &[Unfit<'static>] = &[(b"T.sr().write(|w| w.f1(8).set_bit());", 1, IndexRange)];

#[test]
fn the_ninth_of_eight(rt: HostRuntime) -> Result<(), Fail> {
    let eight = worked_array(rt.alloc(), b"8")?;
    assert!(rt; first_wrong(rt.alloc(), eight.as_slice(), NINTH, &[])? == 1);
    Ok(())
}
