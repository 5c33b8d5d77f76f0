use crate::harness::{ONE_REGISTER, Wanted, answers, described, listing, refusal};
use pac_base::NoMemory;
use std::alloc::Global;
use std::test::Fail;

// Registers of `T`, a script, the bus, and the lines that it prints.
const RUNS: &[(&[u8], &[u8], &str, &[u8])] = &[
    (
        b"<register><name>SR</name><addressOffset>0</addressOffset><resetValue>3</resetValue><fields><field><name>F0</name><bitOffset>0</bitOffset><bitWidth>1</bitWidth><modifiedWriteValues>oneToClear</modifiedWriteValues></field><field><name>F1</name><bitOffset>1</bitOffset><bitWidth>1</bitWidth></field></fields></register>",
        b"T.sr().write(|w| w.f1().set_bit());",
        "zero",
        b"write 0x40000000 32 0x00000002\n",
    ),
    (
        b"<register><name>SR</name><addressOffset>0</addressOffset><resetValue>3</resetValue><fields><field><name>F0</name><bitOffset>0</bitOffset><bitWidth>1</bitWidth><modifiedWriteValues>oneToClear</modifiedWriteValues></field></fields></register>",
        b"T.sr().modify(|_, w| w.f0().clear_bit_by_one());",
        "memory",
        b"read 0x40000000 32 0x00000003\nwrite 0x40000000 32 0x00000003\n",
    ),
    (
        b"<register><name>SR</name><addressOffset>0</addressOffset><resetValue>3</resetValue><fields><field><name>F0</name><bitOffset>0</bitOffset><bitWidth>1</bitWidth><modifiedWriteValues>oneToClear</modifiedWriteValues></field></fields></register>",
        b"T.sr().modify(|_, w| w);",
        "memory",
        b"read 0x40000000 32 0x00000003\nwrite 0x40000000 32 0x00000002\n",
    ),
    (
        b"<register><name>SR</name><addressOffset>0</addressOffset><fields><field><name>F4</name><bitOffset>4</bitOffset><bitWidth>1</bitWidth><modifiedWriteValues>zeroToClear</modifiedWriteValues></field></fields></register>",
        b"T.sr().write(|w| w);\nT.sr().write_with_zero(|w| w);",
        "zero",
        b"write 0x40000000 32 0x00000010\nwrite 0x40000000 32 0x00000000\n",
    ),
    (
        b"<register><name>L</name><addressOffset>0</addressOffset><size>64</size><fields><field><name>V</name><bitOffset>0</bitOffset><bitWidth>64</bitWidth></field></fields></register>",
        b"T.l().write(|w| w.v().bits(0xffff_ffff_ffff_ffff));",
        "zero",
        b"write 0x40000000 64 0xffffffffffffffff\n",
    ),
    (
        b"<register><name>CH[%s]</name><addressOffset>0</addressOffset><dim>4</dim><dimIncrement>16</dimIncrement></register>",
        b"let a = T.ch(3).read();",
        "zero",
        b"read 0x40000030 32 0x00000000\n",
    ),
    (
        b"<register><name>R</name><addressOffset>0</addressOffset><fields><field><name>F0</name><bitOffset>0</bitOffset><bitWidth>1</bitWidth><modifiedWriteValues>oneToClear</modifiedWriteValues></field><field><name>G</name><bitOffset>0</bitOffset><bitWidth>1</bitWidth><modifiedWriteValues>zeroToClear</modifiedWriteValues></field></fields></register>",
        b"T.r().write(|w| w);",
        "zero",
        b"write 0x40000000 32 0x00000001\n",
    ),
    // The last member of an array of fields, and all of them cleared by writing 1.
    (
        b"<register><name>R</name><addressOffset>0</addressOffset><fields><field><name>LV[%s]</name><dim>4</dim><dimIncrement>8</dimIncrement><bitOffset>0</bitOffset><bitWidth>2</bitWidth></field></fields></register>",
        b"T.r().write(|w| w.lv(3).bits(2));",
        "zero",
        b"write 0x40000000 32 0x02000000\n",
    ),
    (
        b"<register><name>R</name><addressOffset>0</addressOffset><resetValue>0xffffffff</resetValue><fields><field><name>LV[%s]</name><dim>4</dim><dimIncrement>8</dimIncrement><bitOffset>0</bitOffset><bitWidth>2</bitWidth><modifiedWriteValues>oneToClear</modifiedWriteValues></field></fields></register>",
        b"T.r().write(|w| w);\nT.r().write(|w| w.lv(1).bits(1));",
        "zero",
        b"write 0x40000000 32 0xfcfcfcfc\nwrite 0x40000000 32 0xfcfcfdfc\n",
    ),
    // Two registers at one address: the preset of the second call stands over that of the first.
    (
        b"<register><name>A</name><addressOffset>0</addressOffset><resetValue>0x11223344</resetValue></register><register><name>B</name><addressOffset>0</addressOffset><size>16</size><resetValue>0xabcd</resetValue></register>",
        b"let a = T.a().read();\nlet b = T.b().read();",
        "memory",
        b"read 0x40000000 32 0x1122abcd\nread 0x40000000 16 0xabcd\n",
    ),
    // Little end first: a byte of a word that was written.
    (
        b"<register><name>A</name><addressOffset>0</addressOffset></register><register><name>B</name><addressOffset>1</addressOffset><size>8</size></register>",
        b"T.a().write(|w| w.bits(0x11223344));\nlet b = T.b().read();\nsay(b.bits());",
        "memory",
        b"write 0x40000000 32 0x11223344\nread 0x40000001 8 0x33\nsay 51\n",
    ),
];

/// Whether `pac` with these words, over a description `x.svd` and a script `x.script`, answers so.
fn runs(
    alloc: Global,
    words: &[&str],
    description: &[u8],
    script: &[u8],
    wanted: &Wanted<'_>,
) -> Result<bool, NoMemory> {
    let files = [("x.svd", description), ("x.script", script)];
    answers(alloc, words, &files, wanted)
}

/// Whether a script against registers of `T` prints this over a bus of the program.
fn prints(
    alloc: Global,
    registers: &[u8],
    script: &[u8],
    bus: &str,
    output: &[u8],
) -> Result<bool, NoMemory> {
    let description = described(alloc, registers)?;
    runs(
        alloc,
        &["run", "x.svd", "x.script", "--bus", bus],
        description.as_slice(),
        script,
        &listing(output),
    )
}

#[test]
fn run_as_the_table_says(rt: HostRuntime) -> Result<(), Fail> {
    for (place, &(registers, script, bus, output)) in RUNS.iter().enumerate() {
        assert!(rt;
            prints(rt.alloc(), registers, script, bus, output)?,
            "{place}"
        );
    }
    Ok(())
}

// Descriptions and scripts that don't fit the one register of `T`, or aren't scripts, with the status and the fault. Of
// two wrong texts the description is refused.
const FAULTS: &[(&[u8], &[u8], u8, &str)] = &[
    (
        ONE_REGISTER,
        b"let a = T.cr().read();\nlet a = T.cr().read();",
        10,
        "script line 2: name bound twice",
    ),
    (
        ONE_REGISTER,
        b"T.cr().write(|w| w.bits(0x1_0000_0000));",
        10,
        "script line 1: literal out of range",
    ),
    (
        ONE_REGISTER,
        b"let a = T.ch(4).read();",
        10,
        "script line 1: no such call",
    ),
    (ONE_REGISTER, b"T.cr().reset()", 10, "script line 1: syntax"),
    (b"", b"no script", 6, "description: syntax at byte 0"),
];

#[test]
fn script_faults(rt: HostRuntime) -> Result<(), Fail> {
    for &(description, script, status, fault) in FAULTS {
        assert!(rt;
            runs(
                rt.alloc(),
                &["run", "x.svd", "x.script"],
                description,
                script,
                &refusal(status, fault)
            )?,
            "{fault}"
        );
    }
    Ok(())
}
