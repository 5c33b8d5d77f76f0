ghost use Rattle.std.specs.Prelude.{◌≡◌, IsTrue, length};
ghost use Rattle.std.specs.List.{list_any};
ghost use Rattle.std.specs.Str.{bytes_eq};
ghost use Rattle.case_table.specs.Entries.{entries_of, words_of};
ghost use Rattle.case_table.specs.Rising.{rises};

use case_table::{CaseRow, CaseTable};

/// Whether the text is a word of the rows, which rise.
pub(crate) fn is_among<const N: usize>(rows: &[CaseRow], text: &[u8]) -> bool
    requires long { length rows.now ≡ N }
    requires rising { IsTrue (rises (words_of (entries_of rows.now))) }
    ensures { result ≡ list_any (bytes_eq text.now) (words_of (entries_of rows.now)) }
{
    let table = CaseTable::<N>::of_rising(rows);
    table.find(text).is_some()
}
