use pac_io::{Bytes, Files, FilesFault, MemFiles, StdFiles};
use std::fs;
use std::test::Fail;

/// What a read of up to so many bytes came to.
fn said(read: &Result<Bytes, FilesFault>) -> &'static str {
    match read {
        Ok(bytes) if bytes.as_slice() == b"text".as_slice() => "text",
        Ok(_) => "another text",
        Err(FilesFault::Failed) => "failed",
        Err(FilesFault::TooLong { limit: 3 }) => "longer than 3",
        Err(_) => "another fault",
    }
}

// The names and limits of reads, one after the other, of which the second is listed to fail, with what each comes to.
const READS: &[(&str, u64, &str)] = &[
    ("a.svd", 4, "text"),
    ("a.svd", 4, "failed"),
    ("b.svd", 4, "failed"),
    ("a.svd", 3, "longer than 3"),
];

#[test]
fn files_in_memory_fail_where_listed_or_missing(rt: HostRuntime) -> Result<(), Fail> {
    let mut files = MemFiles::new(rt.alloc());
    files.add("a.svd", b"old")?;
    files.add("a.svd", b"text")?;
    files.fail(2)?;
    for &(name, limit, wanted) in READS {
        assert!(rt;
            said(&files.read(rt.alloc(), name, limit)) == wanted,
            "{name}"
        );
    }
    Ok(())
}

const REAL: &str = "description_rows_real_file.tmp";

/// What reading a real file comes to.
fn real(rt: &HostRuntime, name: &str, limit: u64) -> &'static str {
    let mut files = StdFiles::new(rt);
    said(&files.read(rt.alloc(), name, limit))
}

#[test]
fn real_files_are_read_up_to_the_limit(rt: HostRuntime) -> Result<(), Fail> {
    fs::write(&rt, REAL, "text")?;
    assert!(rt; real(&rt, REAL, 4) == "text");
    assert!(rt; real(&rt, REAL, 3) == "longer than 3");
    fs::remove_file(&rt, REAL)?;
    assert!(rt; real(&rt, REAL, 4) == "failed");
    assert!(rt; real(&rt, ".", 4) == "failed");
    Ok(())
}
