use crate::harness::{Wanted, joined, listing, lists, lists_registers, refusal};
use pac_base::NoMemory;
use std::alloc::Global;
use std::test::Fail;

// Peripherals of which some are derived, and the lines that list them.
const DERIVED: &[(&str, &[u8], &[u8])] = &[
    (
        "derived_chain",
        b"<peripheral><name>A</name><baseAddress>0x40000000</baseAddress><resetValue>1</resetValue><registers><register><name>R</name><addressOffset>0</addressOffset></register></registers></peripheral><peripheral derivedFrom=\"A\"><name>B</name><baseAddress>0x40001000</baseAddress><resetValue>2</resetValue></peripheral><peripheral derivedFrom=\"B\"><name>C</name><baseAddress>0x40002000</baseAddress></peripheral>",
        b"A.r 0x40000000 32 rw 0x00000001\nB.r 0x40001000 32 rw 0x00000002\nC.r 0x40002000 32 rw 0x00000002\n",
    ),
    // The source stands behind, and is derived itself.
    (
        "a_source_that_comes_later",
        b"<peripheral derivedFrom=\"B\"><name>A</name><baseAddress>0x40000000</baseAddress></peripheral><peripheral derivedFrom=\"C\"><name>B</name><baseAddress>0x40001000</baseAddress></peripheral><peripheral><name>C</name><baseAddress>0x40002000</baseAddress><registers><register><name>R</name><addressOffset>0</addressOffset></register></registers></peripheral>",
        b"A.r 0x40000000 32 rw 0x00000000\nB.r 0x40001000 32 rw 0x00000000\nC.r 0x40002000 32 rw 0x00000000\n",
    ),
    // An own register stands whole in the place of the source's of its name; others stand behind.
    (
        "own_registers",
        b"<peripheral><name>A</name><baseAddress>0x40000000</baseAddress><registers><register><name>R</name><addressOffset>0</addressOffset><resetValue>1</resetValue></register><register><name>Q</name><addressOffset>4</addressOffset></register></registers></peripheral><peripheral derivedFrom=\"A\"><name>B</name><baseAddress>0x40001000</baseAddress><registers><register><name>S</name><addressOffset>12</addressOffset></register><register><name>R</name><addressOffset>8</addressOffset></register></registers></peripheral>",
        b"A.r 0x40000000 32 rw 0x00000001\nA.q 0x40000004 32 rw 0x00000000\nB.r 0x40001008 32 rw 0x00000000\nB.q 0x40001004 32 rw 0x00000000\nB.s 0x4000100c 32 rw 0x00000000\n",
    ),
];

const BEGINS: &[u8] = b"<device><name>D</name><peripherals>";

const ENDS: &[u8] = b"</peripherals></device>";

/// Whether a device with these peripherals is listed so.
fn lists_peripherals(
    alloc: Global,
    peripherals: &[u8],
    wanted: &Wanted<'_>,
) -> Result<bool, NoMemory> {
    let description = joined(alloc, &[BEGINS, peripherals, ENDS])?;
    lists(alloc, description.as_slice(), wanted)
}

#[test]
fn derived_chain(rt: HostRuntime) -> Result<(), Fail> {
    for &(row, peripherals, output) in DERIVED {
        assert!(rt;
            lists_peripherals(rt.alloc(), peripherals, &listing(output))?,
            "{row}"
        );
    }
    Ok(())
}

// What derived registers, fields and clusters of `T` are listed as.
const WITHIN: &[(&str, &[u8], &[u8])] = &[
    (
        "derived_register",
        b"<register><name>A</name><addressOffset>0</addressOffset></register><register derivedFrom=\"A\"><name>B</name><addressOffset>4</addressOffset></register>",
        b"T.a 0x40000000 32 rw 0x00000000\nT.b 0x40000004 32 rw 0x00000000\n",
    ),
    // The width is the source's where none is stated, and so is the access, which decides that of the register.
    (
        "derived_field",
        b"<register><name>A</name><addressOffset>0</addressOffset><fields><field><name>F</name><bitOffset>0</bitOffset><bitWidth>2</bitWidth><access>read-only</access></field><field derivedFrom=\"F\"><name>G</name><bitOffset>4</bitOffset></field></fields></register>",
        b"T.a 0x40000000 32 ro 0x00000000\n  f [1:0] ro modify\n  g [5:4] ro modify\n",
    ),
    // A dimension is taken over only under a name that is marked.
    (
        "derived_list",
        b"<register><name>A%s</name><addressOffset>0</addressOffset><dim>2</dim><dimIncrement>4</dimIncrement></register><register derivedFrom=\"A%s\"><name>B</name><addressOffset>8</addressOffset></register><register derivedFrom=\"A%s\"><name>C%s</name><addressOffset>16</addressOffset></register>",
        b"T.a0 0x40000000 32 rw 0x00000000\nT.a1 0x40000004 32 rw 0x00000000\nT.b 0x40000008 32 rw 0x00000000\nT.c0 0x40000010 32 rw 0x00000000\nT.c1 0x40000014 32 rw 0x00000000\n",
    ),
    (
        "derived_cluster",
        b"<cluster><name>C</name><addressOffset>0</addressOffset><size>16</size><register><name>R</name><addressOffset>2</addressOffset></register></cluster><cluster derivedFrom=\"C\"><name>D</name><addressOffset>4</addressOffset></cluster><register derivedFrom=\"C.R\"><name>S</name><addressOffset>8</addressOffset></register>",
        b"T.c.r 0x40000002 16 rw 0x0000\nT.d.r 0x40000006 16 rw 0x0000\nT.s 0x40000008 32 rw 0x00000000\n",
    ),
];

#[test]
fn derived_within_a_peripheral(rt: HostRuntime) -> Result<(), Fail> {
    for &(row, registers, output) in WITHIN {
        assert!(rt;
            lists_registers(rt.alloc(), registers, &listing(output))?,
            "{row}"
        );
    }
    Ok(())
}

// Peripherals that can't be derived: with a circle, and with a source that isn't there, which counts before a circle.
const REFUSED: &[(&[u8], &str)] = &[
    (
        b"<peripheral derivedFrom=\"B\"><name>A</name><baseAddress>0</baseAddress></peripheral><peripheral derivedFrom=\"A\"><name>B</name><baseAddress>0</baseAddress></peripheral>",
        "A: derivedFrom runs in a circle",
    ),
    (
        b"<peripheral derivedFrom=\"X\"><name>A</name><baseAddress>0</baseAddress></peripheral>",
        "A: derivedFrom X is missing",
    ),
    (
        b"<peripheral derivedFrom=\"B\"><name>A</name><baseAddress>0</baseAddress></peripheral><peripheral derivedFrom=\"A\"><name>B</name><baseAddress>0</baseAddress></peripheral><peripheral derivedFrom=\"X.Y\"><name>C</name><baseAddress>0</baseAddress></peripheral>",
        "C: derivedFrom X.Y is missing",
    ),
];

#[test]
fn circle_and_missing_source(rt: HostRuntime) -> Result<(), Fail> {
    for &(peripherals, fault) in REFUSED {
        assert!(rt;
            lists_peripherals(rt.alloc(), peripherals, &refusal(8, fault))?,
            "{fault}"
        );
    }
    Ok(())
}

// The same within `T`: a register is no source of a field, a cluster depends on what is within it, and a set is told
// by its field.
const REFUSED_WITHIN: &[(&[u8], &str)] = &[
    (
        b"<register><name>A</name><addressOffset>0</addressOffset><fields><field derivedFrom=\"A\"><name>F</name><bitOffset>0</bitOffset></field></fields></register>",
        "T.A.F: derivedFrom A is missing",
    ),
    (
        b"<register derivedFrom=\"A\"><name>A</name><addressOffset>0</addressOffset></register>",
        "T.A: derivedFrom runs in a circle",
    ),
    (
        b"<cluster><name>C</name><addressOffset>0</addressOffset><cluster derivedFrom=\"C\"><name>X</name><addressOffset>0</addressOffset></cluster></cluster>",
        "T.C.X: derivedFrom runs in a circle",
    ),
    (
        b"<register><name>A</name><addressOffset>0</addressOffset><fields><field><name>F</name><bitOffset>0</bitOffset><enumeratedValues derivedFrom=\"E\"/></field></fields></register>",
        "T.A.F: derivedFrom E is missing",
    ),
];

#[test]
fn circle_and_missing_source_within_a_peripheral(rt: HostRuntime) -> Result<(), Fail> {
    for &(registers, fault) in REFUSED_WITHIN {
        assert!(rt;
            lists_registers(rt.alloc(), registers, &refusal(8, fault))?,
            "{fault}"
        );
    }
    Ok(())
}

/// A cluster `C<k>` that holds a cluster of each of these names, derived from the cluster `C<source>`.
fn push_cluster(
    alloc: Global,
    text: &mut String,
    k: u32,
    source: u32,
    names: &[&str],
) -> Result<(), NoMemory> {
    push(
        text,
        format!(in alloc; "<cluster><name>C{k}</name><addressOffset>0</addressOffset>")?,
    )?;
    for name in names {
        push(
            text,
            format!(in alloc;
                "<cluster derivedFrom=\"C{source}\"><name>{name}</name><addressOffset>0</addressOffset></cluster>"
            )?,
        )?;
    }
    Ok(text.push_str("</cluster>")?)
}

fn push(text: &mut String, more: String) -> Result<(), NoMemory> {
    Ok(text.push_str(more.as_str())?)
}

/// A peripheral `P` with a cluster `C0` that holds a register, and clusters up to `C<last>`, each of which holds
/// clusters of these names that are derived from the one before it.
fn chain(alloc: Global, last: u32, names: &[&str]) -> Result<String, NoMemory> {
    let mut text = String::new(alloc);
    let mut source = 0;
    for k in 1..=last {
        push_cluster(alloc, &mut text, k, source, names)?;
        source = k;
    }
    Ok(format!(in alloc;
        "<device><name>D</name><peripherals><peripheral><name>P</name><baseAddress>0</baseAddress><registers><cluster><name>C0</name><addressOffset>0</addressOffset><register><name>R</name><addressOffset>0</addressOffset></register></cluster>{text}</registers></peripheral></peripherals></device>"
    )?)
}

/// The lines of the registers at the ends of the chains from `C0`, `C1` .. on, so many.
fn lines(alloc: Global, count: u32) -> Result<String, NoMemory> {
    let mut lines = String::new(alloc);
    for k in 0..count {
        push(&mut lines, format!(in alloc; "P.c{k}")?)?;
        for _ in 0..k {
            lines.push_str(".a")?;
        }
        lines.push_str(".r 0x00000000 32 rw 0x00000000\n")?;
    }
    Ok(lines)
}

/// Whether such a peripheral is listed so.
fn lists_chain(
    alloc: Global,
    last: u32,
    names: &[&str],
    wanted: &Wanted<'_>,
) -> Result<bool, NoMemory> {
    let description = chain(alloc, last, names)?;
    lists(alloc, description.as_bytes(), wanted)
}

#[test]
fn sixty_four_steps(rt: HostRuntime) -> Result<(), Fail> {
    let lines = lines(rt.alloc(), 62)?;
    assert!(rt; lists_chain(rt.alloc(), 61, &["A"], &listing(lines.as_bytes()))?);
    Ok(())
}

// Chains that are refused: how long, and the names in each cluster; 65 steps, and with two in each cluster elements
// that are counted before they are copied.
const REFUSED_CHAINS: &[(u32, &[&str], u8, &str)] = &[
    (62, &["A"], 8, "P: clusters nest deeper than 64"),
    (18, &["A", "B"], 11, "too many elements: 1572843"),
    (40, &["A", "B"], 11, "too many elements: 6597069766613"),
];

#[test]
fn refused_chains(rt: HostRuntime) -> Result<(), Fail> {
    for &(last, names, status, fault) in REFUSED_CHAINS {
        assert!(rt;
            lists_chain(rt.alloc(), last, names, &refusal(status, fault))?,
            "{fault}"
        );
    }
    Ok(())
}
