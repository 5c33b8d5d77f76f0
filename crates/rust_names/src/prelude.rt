ghost use Rattle.std.specs.Prelude.{◌≡◌};
ghost use Rattle.std.specs.List.{list_any};
ghost use Rattle.std.specs.Str.{bytes_eq};
ghost use Rattle.rust_names.specs.PreludeNames.{first_names, is_prelude_name};

use crate::table::is_among;
use case_table::CaseRow;

/// Whether the word is a name of the prelude of a generated crate, in either version of its text.
#[tactic(auto, unfolding(crate::specs::PreludeNames::is_prelude_name))]
pub fn is_prelude_name(word: &[u8]) -> bool
    ensures { result ≡ is_prelude_name word.now }
{
    word == b"at_bit".as_slice() || is_first_name(word)
}

/// Whether it is one in version 1.
fn is_first_name(word: &[u8]) -> bool
    ensures { result ≡ list_any (bytes_eq word.now) first_names }
{
    let rows = rows![
        "at",
        "at_index",
        "bit",
        "bit_is_clear",
        "bit_is_set",
        "bits",
        "clear_bit",
        "clear_bit_by_one",
        "generic",
        "modify",
        "new",
        "read",
        "reset",
        "set_bit",
        "set_bit_by_zero",
        "toggle_bit",
        "write",
        "write_with_zero",
    ];
    is_among::<18>(&rows, word)
}
