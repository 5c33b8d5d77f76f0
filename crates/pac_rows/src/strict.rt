use crate::harness::{Wanted, answers, described};
use pac_base::NoMemory;
use std::alloc::Global;
use std::test::Fail;

/// Two registers at one address, neither of which names the other.
const ALTERNATES: &[u8] =
    b"<register><name>CCMR1_OUTPUT</name><addressOffset>0x18</addressOffset></register><register><name>CCMR1_INPUT</name><addressOffset>0x18</addressOffset></register>";

/// What lists them.
const LISTED: &[u8] =
    b"T.ccmr1_output 0x40000018 32 rw 0x00000000\nT.ccmr1_input 0x40000018 32 rw 0x00000000\n";

/// The same registers, of which the second names the first.
const NAMED: &[u8] =
    b"<register><name>CCMR1_OUTPUT</name><addressOffset>0x18</addressOffset></register><register><name>CCMR1_INPUT</name><alternateRegister>CCMR1_OUTPUT</alternateRegister><addressOffset>0x18</addressOffset></register>";

/// Two fields of one register at one bit.
const FIELDS: &[u8] =
    b"<register><name>R</name><addressOffset>0</addressOffset><fields><field><name>F0</name><bitOffset>0</bitOffset><bitWidth>1</bitWidth><modifiedWriteValues>oneToClear</modifiedWriteValues></field><field><name>G</name><bitOffset>0</bitOffset><bitWidth>1</bitWidth><modifiedWriteValues>zeroToClear</modifiedWriteValues></field></fields></register>";

/// What lists those fields.
const FIELDS_LISTED: &[u8] =
    b"T.r 0x40000000 32 rw 0x00000000\n  f0 [0:0] rw oneToClear\n  g [0:0] rw zeroToClear\n";

/// What a script reads of the second register.
const READ: &[u8] = b"read 0x40000018 32 0x00000000\n";

/// How the registers are refused.
const OVERLAP: &str = "T.CCMR1_OUTPUT and T.CCMR1_INPUT overlap";

// Words, registers of `T`, and what is answered: the status, the output, and the fault. The other commands over a
// description refuse the same as listing does.
const ROWS: &[(&[&str], &[u8], u8, &[u8], &str)] = &[
    (&["list", "x.svd"], ALTERNATES, 0, LISTED, ""),
    (&["list", "x.svd", "--strict"], ALTERNATES, 8, b"", OVERLAP),
    (&["list", "x.svd"], FIELDS, 0, FIELDS_LISTED, ""),
    (
        &["list", "x.svd", "--strict"],
        FIELDS,
        8,
        b"",
        "T.R.F0 and T.R.G overlap",
    ),
    (&["list", "x.svd", "--strict"], NAMED, 0, LISTED, ""),
    (
        &["generate", "--strict", "x.svd"],
        ALTERNATES,
        8,
        b"",
        OVERLAP,
    ),
    (
        &["run", "x.svd", "s", "--strict"],
        ALTERNATES,
        8,
        b"",
        OVERLAP,
    ),
    (&["run", "x.svd", "s"], ALTERNATES, 0, READ, ""),
    (&["run", "--strict", "x.svd", "s"], NAMED, 0, READ, ""),
];

/// Whether `pac` with these words, over registers of `T` and a script, answers so.
fn answers_so(
    alloc: Global,
    words: &[&str],
    registers: &[u8],
    wanted: &Wanted<'_>,
) -> Result<bool, NoMemory> {
    let description = described(alloc, registers)?;
    let files = [
        ("x.svd", description.as_slice()),
        ("s", b"let a = T.ccmr1_input().read();".as_slice()),
    ];
    answers(alloc, words, &files, wanted)
}

#[test]
fn overlaps(rt: HostRuntime) -> Result<(), Fail> {
    for (place, &(words, registers, status, output, fault)) in ROWS.iter().enumerate() {
        let wanted = Wanted {
            status,
            output,
            fault,
        };
        assert!(rt;
            answers_so(rt.alloc(), words, registers, &wanted)?,
            "{place}"
        );
    }
    Ok(())
}
