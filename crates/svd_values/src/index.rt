ghost use Rattle.std.specs.Prelude.{◌≡◌, ◌≢◌, ◌↔◌, ◌≤◌, ℕ, [], length, drop, slice_get, List, MatchResult, MatchOption, IfOk, IsErrOf};
ghost use Rattle.std.specs.List.{prefix_len};
ghost use Rattle.pac_base.specs.Names.{is_word_byte, IsWord};
ghost use Rattle.svd_values.specs.Readers.{read_numbers, read_letters, letters_rise, skip_white};
ghost use Rattle.svd_values.specs.Indexes.{IsNumberRange, IsLetterRange, is_white, IsFullWord, IsWordList, IsIndex};
ghost use Rattle.svd_values.specs.declared.index.DimIndex.{DimIndex as DimIndexOf};
ghost use Rattle.svd_values.specs.declared.index.IndexFault.TheVariants.{Memory};

use crate::call_name::{is_word_byte, named};
use crate::numeral::{Digits, number_until, value_of};
use pac_base::{Name, NoMemory, Seq};
use std::alloc::{AllocError, AllocFailed, Global};
use thiserror::Error;

/// The words of an index list, seen as a list of names.
pub type Words = Seq<Name>;

/// The indexes of a dimension (CMSIS-SVD 1.3, `dimIndex`).
#[derive(Drop)]
pub enum DimIndex {
    /// The numbers from the first to the last, both among them.
    Numbers { first: u64, last: u64 },
    /// The letters from the first to the last, both among them and of one case.
    Letters { first: u8, last: u8 },
    /// These words.
    Words(Words),
}

/// Why a text gave no index.
#[derive(Debug, Drop, Error)]
pub enum IndexFault {
    /// The text is no range of numbers or letters that rises and no list of words.
    #[error("not an index")]
    NotAnIndex,
    /// Memory was wanting.
    #[error("out of memory")]
    Memory,
}

impl From<NoMemory> for IndexFault {
    ghost from_gives = { λ _ fault. fault ≡ Memory };

    fn from(_error: NoMemory) -> IndexFault {
        IndexFault::Memory
    }
}

impl From<AllocError> for IndexFault {
    ghost from_gives = { λ _ fault. fault ≡ Memory };

    fn from(_error: AllocError) -> IndexFault {
        IndexFault::Memory
    }
}

impl<T: Drop> From<AllocFailed<T>> for IndexFault {
    ghost from_gives = { λ _ fault. fault ≡ Memory };

    fn from(_error: AllocFailed<T>) -> IndexFault {
        IndexFault::Memory
    }
}

// The two ends of a range of decimal numbers.
#[tactic(auto, unfolding(crate::specs::Readers::read_numbers, crate::specs::Readers::rising))]
fn number_range(text: &[u8]) -> Option<(u64, u64)>
    ensures { result ≡ read_numbers text.now }
{
    let (first, rest) = number_until(text, b'-')?;
    let last = value_of(rest, Digits::Decimal)?;
    if first <= last {
        Some((first, last))
    } else {
        None
    }
}

fn letters_rise(first: u8, last: u8) -> bool
    ensures { result ≡ letters_rise first last }
{
    let upper = first.is_ascii_uppercase() && last.is_ascii_uppercase();
    let lower = first.is_ascii_lowercase() && last.is_ascii_lowercase();
    first <= last && (upper || lower)
}

// The two ends of a range of letters.
#[tactic(auto, unfolding(crate::specs::Readers::read_letters))]
fn letter_range(text: &[u8]) -> Option<(u8, u8)>
    ensures { result ≡ read_letters text.now }
{
    match text {
        [first, b'-', last] if letters_rise(*first, *last) => Some((*first, *last)),
        _ => None,
    }
}

// How many bytes at the front are letters, digits or `_`.
fn word_len(text: &[u8]) -> usize
    ensures count { result ≡ prefix_len is_word_byte text.now }
    ensures within { result ≤ length text.now }
{
    text.iter().take_while(|byte| is_word_byte(**byte)).count()
}

// How many bytes at the front are white space.
fn white_len(text: &[u8]) -> usize
    ensures count { result ≡ prefix_len is_white text.now }
    ensures within { result ≤ length text.now }
{
    text.iter().take_while(|byte| is_white(**byte)).count()
}

fn is_white(byte: u8) -> bool
    ensures { result ≡ is_white byte }
{
    matches!(byte, b' ' | b'\t' | b'\r' | b'\n')
}

// The text behind a comma and the white space there; None where the text is empty, and a fault
// where it begins with anything else.
#[tactic(auto, unfolding(crate::specs::Readers::skip_white))]
fn behind_comma(text: &[u8]) -> Result<Option<&[u8]>, IndexFault>
    ensures { MatchResult result
        (λ next. MatchOption next (text.now ≡ [])
        (λ rest. rest.now ≡ skip_white (drop 1 text.now) × (slice_get text.now 0 ≡ Some 44)))
        (λ fault. (fault ≡ IndexFault.NotAnIndex) × (text.now ≢ []) × (slice_get text.now 0 ≢ Some 44)) }
{
    match text {
        [] => Ok(None),
        [b',', rest @ ..] => Ok(Some(rest.split_at(white_len(rest)).1)),
        _ => Err(IndexFault::NotAnIndex),
    }
}

// The name that the word at the front of a list is.
fn first_name(alloc: Global, word: &[u8]) -> Result<Name, IndexFault>
    requires { IsWord word.now }
    ensures { MatchResult result
        (λ name. (name ≡ word.now) × IsFullWord word.now)
        (λ fault. fault ≡ IndexFault.NotAnIndex → word.now ≡ []) }
{
    if word.is_empty() {
        return Err(IndexFault::NotAnIndex);
    }
    Ok(named(alloc, word)?)
}

// The words of a list.
fn words(alloc: Global, text: &[u8]) -> Result<Words, IndexFault>
    ensures { MatchResult result (IsWordList text.now)
        (λ fault. fault ≡ IndexFault.NotAnIndex → (words : List (List ℕ)) → ¬ (IsWordList text.now words)) }
{
    let mut words = Words::new(alloc);
    let mut rest = text;
    'words: loop {
        let (word, after) = rest.split_at(word_len(rest));
        words.push(first_name(alloc, word)?)?;
        match behind_comma(after)? {
            None => return Ok(words),
            Some(next) => rest = next,
        }
    }
}

/// The indexes that the text gives: a range of numbers as `0-7`, a range of letters of one case as
/// `A-D`, or words parted by commas. `NotAnIndex` exactly where the text is none of these or the
/// range falls.
pub fn dim_index(alloc: Global, text: &[u8]) -> Result<DimIndex, IndexFault>
    ensures ok { IfOk result (IsIndex text.now) }
    ensures refused { IsErrOf result IndexFault.NotAnIndex → (index : DimIndexOf) → ¬ (IsIndex text.now index) }
{
    if let Some((first, last)) = number_range(text) {
        return Ok(DimIndex::Numbers { first, last });
    }
    if let Some((first, last)) = letter_range(text) {
        return Ok(DimIndex::Letters { first, last });
    }
    Ok(DimIndex::Words(words(alloc, text)?))
}
