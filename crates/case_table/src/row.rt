#![tactic(auto)]

ghost use Rattle.std.specs.Prelude.{◌≡◌};
ghost use Rattle.std.specs.Ordering.{nat_cmp};
ghost use Rattle.std.specs.Cmp.Lexicographic.{slice_cmp};

use std::cmp::Ordering;

/// A word of a table and the code that stands for it.
#[derive(Clone, Copy)]
pub struct CaseRow<'a> {
    pub word: &'a str,
    pub code: u16,
}

impl<'a> CaseRow<'a> {
    // How the row's word stands to another: the first byte that differs decides, else the length.
    pub(crate) fn compared(&self, word: &[u8]) -> Ordering
        ensures { result ≡ slice_cmp nat_cmp self.now.word.now word.now }
    {
        self.word.as_bytes().cmp(&word)
    }
}
