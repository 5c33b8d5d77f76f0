use frag_script::{ScriptFault, parse_script};
use frag_tree::Statement;
use std::alloc::Global;
use std::test::Fail;

// Scripts, and how many statements each has.
const READ: &[(&[u8], usize)] = &[
    (b"let s = A.b().read();", 1),
    (b"A.b(0xF_f).write(|w| w);", 1),
    (b"A.b(1_0).c().write(|w| w.bits(!true).x().y());", 1),
    (b"A.b(007).write_with_zero(|w| w.x().y(r.bits() as u8));", 1),
    (b"A.b().modify(|r, w| w.x().bits(r.x().bits()));", 1),
    (b"A.b().modify(|_, w| w); // comment", 1),
    (b"A . reset ( ) . reset ( ) ;\r", 1),
    (b"say(!300);", 1),
    (b"say(18446744073709551615);", 1),
    (b"say.x().reset();", 1),
    // fields with an index
    (b"A.b().write(|w| w.x(0x1_f).y().z(2).y(!true));", 1),
    (b"say(r.x(3).y() as u16);", 1),
    (b"A.bits(3).c().write(|w| w.bits(3).bits().x());", 1),
    (b"say(r.bits().y());", 1),
    // the vendor's script
    (
        b"TIM2.cr1().modify(|_, w| w.cen().enabled().ckd().bits(2));
let s = TIM3.sr().read();
say(s.uif().bit_is_set());
TIM3.sr().write(|w| w.uif().clear_bit());
TIM2.ccr(1).write(|w| w.bits(0x1f4));
",
        5,
    ),
];

// Scripts, and the first line of each that holds no statement.
const REFUSED: &[(&[u8], u32)] = &[
    (b"\n\nsay(1__0);", 3),
    (b"// \r\n\nsay(0x_1);", 3),
    (b"say(1);\n \t\r\nsay(1_);", 3),
    (b"\n\nsay(18446744073709551616);", 3),
    (b"\n\nA.read();", 3),
    (b"\n\nA.b().modify(|w| w);", 3),
    (b"\n\nlet let = A.b().read();", 3),
    (b"\n\nsay(1); say(1);", 3),
    (b"\n\nsay(1)\r;", 3),
    // an index where there is none, and no number as an index
    (b"\n\nA.b().write(|w| w.x(1));", 3),
    (b"\n\nA.b().write(|w| w.x(1, 2).y());", 3),
    (b"\n\nA.b().write(|w| w.x(true).y());", 3),
    (b"\n\nsay(r.bits(3).y());", 3),
    (b"\n\nsay(r.x(3));", 3),
    (b"\n\nsay(r.x(18446744073709551616).y());", 3),
];

// How many statements the text has, or its first wrong line; line 0 stands for any other fault.
fn read(alloc: Global, text: &[u8]) -> Result<usize, u32> {
    if text.len() > 67_108_864 {
        return Err(0);
    }
    match parse_script(alloc, text) {
        Ok(script) => Ok(script.lines.len()),
        Err(ScriptFault::Syntax { line }) => Err(line),
        Err(_) => Err(0),
    }
}

#[test]
fn scripts_with_their_statements(rt: HostRuntime) -> Result<(), Fail> {
    for (place, &(text, count)) in READ.iter().enumerate() {
        assert!(rt; read(rt.alloc(), text) == Ok(count), "{place}");
    }
    for (place, &(text, line)) in REFUSED.iter().enumerate() {
        assert!(rt; read(rt.alloc(), text) == Err(line), "{place}");
    }
    Ok(())
}

#[test]
fn a_statement_has_its_line(rt: HostRuntime) -> Result<(), Fail> {
    let script = parse_script(rt.alloc(), b"\nA.b().modify(|_, w| w);")?;
    let found = match script.lines.get(0) {
        Some(first) => {
            first.line == 2
                && matches!(
                    &first.statement,
                    Statement::Modify {
                        names_reader: false,
                        ..
                    }
                )
        }
        None => false,
    };
    assert!(rt; found);
    Ok(())
}
