#![tactic(auto)]

ghost use Rattle.std.specs.Prelude.{◌≡◌, ◌↔◌, ℕ, IfOk, IsOk, IsTrue, IfErr, Contains, length};
ghost use Rattle.std.specs.Map.{lookup};
ghost use Rattle.std.specs.Str.{bytes_eq};
ghost use Rattle.case_table.specs.Entries.{entries_of, words_of};
ghost use Rattle.case_table.specs.Rising.{rises, is_below, IsFirstFall};

use crate::row::CaseRow;
use std::marker::Model;
use thiserror::Error;

/// The rows of a table don't rise: `at` is the first place whose word isn't above the one before.
#[derive(Clone, Copy, Debug, Error, PartialEq, Eq)]
#[error("the word at {at} does not rise above the one before")]
pub struct Unsorted {
    pub at: usize,
}

/// A table of `N` words in rising order of their bytes, each with its code.
#[derive(Drop)]
pub struct CaseTable<'a, const N: usize> {
    rows: &'a [CaseRow<'a>],
}

impl<'a, const N: usize> Model for CaseTable<'a, N> {
    ghost use Rattle.std.specs.Prelude.{List, ℕ, IsTrue, ◌≡◌, length};
    ghost use Rattle.case_table.specs.Entries.{entries_of, words_of};
    ghost use Rattle.case_table.specs.Rising.{rises};

    ghost Value = { List (List ℕ × ℕ) };

    ghost view = { λ t. entries_of t.rows.now };

    ghost invariant = { λ t. IsTrue (rises (words_of (entries_of t.rows.now))) };
}

fn precedes(word: &str, next: &str) -> bool
    ensures { result ≡ is_below word.now next.now }
{
    word.cmp(&next).is_lt()
}

impl<'a, const N: usize> CaseTable<'a, N> {
    /// The table of these rows. `Unsorted` comes exactly where a word doesn't rise above the one
    /// before it, and says where the first such word stands.
    pub fn new(rows: &'a [CaseRow<'a>]) -> Result<CaseTable<'a, N>, Unsorted>
        requires { length rows.now ≡ N }
        ensures table { IfOk result (λ t. t ≡ entries_of rows.entry.now) }
        ensures rising { IsOk result ↔ IsTrue (rises (words_of (entries_of rows.entry.now))) }
        ensures first_fall { IfErr result (λ e. IsFirstFall (words_of (entries_of rows.entry.now)) e.at) }
    {
        for at in 1..rows.len() {
            if !precedes(rows[at - 1].word, rows[at].word) {
                return Err(Unsorted { at });
            }
        }
        Ok(CaseTable { rows })
    }

    /// The table of rows that are known to rise, without a look at them.
    pub fn of_rising(rows: &'a [CaseRow<'a>]) -> CaseTable<'a, N>
        requires long { length rows.now ≡ N }
        requires rising { IsTrue (rises (words_of (entries_of rows.now))) }
        ensures { result ≡ entries_of rows.entry.now }
    {
        CaseTable { rows }
    }

    /// The code of the row that has this word; None exactly where no row has it.
    pub fn find(&self, word: &[u8]) -> Option<u16>
        ensures value { result ≡ lookup (bytes_eq word.now) self.now }
        ensures found { (code : ℕ) → (result ≡ Some code) ↔ Contains self.now (word.now, code) }
    {
        match self.rows.binary_search_by(|row| row.compared(word)) {
            Ok(at) => Some(self.rows[at].code),
            Err(_) => None,
        }
    }
}
