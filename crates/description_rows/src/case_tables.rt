use case_table::{CaseRow, CaseTable, Unsorted};
use std::test::Fail;

fn row(word: &str, code: u16) -> CaseRow<'_> {
    CaseRow { word, code }
}

#[test]
fn two_equal_words_are_unsorted_at_the_second(rt: HostRuntime) -> Result<(), Fail> {
    let rows = [row("bit", 4), row("read", 7), row("read", 8)];
    let made = CaseTable::<3>::new(&rows);
    assert!(rt; matches!(made, Err(Unsorted { at: 2 })));
    let rows = [row("bit", 4), row("read", 7)];
    let table = CaseTable::<2>::new(&rows)?;
    assert!(rt; table.find(b"read") == Some(7));
    Ok(())
}
