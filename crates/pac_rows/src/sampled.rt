use crate::harness::{Failing, Wanted, answers_where};
use pac_base::NoMemory;
use std::alloc::Global;
use std::test::Fail;

/// A sample: its two numbers; which write and which access fail, where they aren't 0; and its status, its summary,
/// and its fault line.
type Sample<'a> = (&'a str, &'a str, u64, u64, u8, &'a [u8], &'a str);

const SAMPLES: &[Sample<'static>] = &[
    (
        "0",
        "1",
        0,
        0,
        0,
        b"registers 1\nreads 1\nwrites 1\nsum 256\n",
        "",
    ),
    (
        "5",
        "2",
        0,
        0,
        0,
        b"registers 2\nreads 2\nwrites 2\nsum 39429\n",
        "",
    ),
    (
        "0x0",
        "3",
        0,
        0,
        0,
        b"registers 3\nreads 3\nwrites 3\nsum 117759\n",
        "",
    ),
    // words that give no numbers
    ("5", "0", 0, 0, 2, b"", "bad number"),
    ("0", "65537", 0, 0, 2, b"", "bad number"),
    ("five", "2", 0, 0, 2, b"", "bad number"),
    ("5", "", 0, 0, 2, b"", "bad number"),
    // where the bus fails, nothing is written
    ("0", "1", 0, 2, 5, b"", "the bus failed after 1 events"),
    ("0", "1", 1, 0, 4, b"", "cannot write"),
];

fn answers_so(alloc: Global, sample: Sample<'_>) -> Result<bool, NoMemory> {
    let (number, count, write, access, status, output, fault) = sample;
    let failing = Failing {
        read: 0,
        write,
        access,
    };
    let wanted = Wanted {
        status,
        output,
        fault,
    };
    answers_where(alloc, &["sample", number, count], &[], failing, &wanted)
}

#[test]
fn samples(rt: HostRuntime) -> Result<(), Fail> {
    for &sample in SAMPLES {
        assert!(rt;
            answers_so(rt.alloc(), sample)?,
            "{} {}",
            sample.0,
            sample.1
        );
    }
    Ok(())
}
