ghost use Rattle.std.specs.Prelude.{◌≡◌, IsTrue, length, slice_get, option_and_then};
ghost use Rattle.std.specs.Map.{lookup};
ghost use Rattle.std.specs.Str.{bytes_eq};
ghost use Rattle.case_table.specs.Entries.{entries_of, words_of};
ghost use Rattle.case_table.specs.Rising.{rises};

use case_table::{CaseRow, CaseTable};

/// The code of a text in rows whose words rise; None where no row has it.
pub(crate) fn code_of<const N: usize>(rows: &[CaseRow], text: &[u8]) -> Option<u16>
    requires long { length rows.now ≡ N }
    requires rising { IsTrue (rises (words_of (entries_of rows.now))) }
    ensures { result ≡ lookup (bytes_eq text.now) (entries_of rows.now) }
{
    let table = CaseTable::<N>::of_rising(rows);
    table.find(text)
}

/// The value at the code of a text in rows whose words rise; None where no row has it or no value
/// stands there.
pub(crate) fn value_in<T: Copy, const N: usize>(
    rows: &[CaseRow],
    values: &[T],
    text: &[u8],
) -> Option<T>
    requires long { length rows.now ≡ N }
    requires rising { IsTrue (rises (words_of (entries_of rows.now))) }
    ensures { result ≡ option_and_then (slice_get values.now) (lookup (bytes_eq text.now) (entries_of rows.now)) }
{
    let code = code_of::<N>(rows, text)?;
    values.get(usize::from(code)).copied()
}
