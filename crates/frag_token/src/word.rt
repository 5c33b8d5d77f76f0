ghost use Rattle.std.specs.Prelude.{◌≡◌};
ghost use Rattle.std.specs.Str.{bytes_eq};
ghost use Rattle.frag_words.specs.Words.{words_in};
ghost use Rattle.frag_token.specs.Signs.{sign_word};
ghost use Rattle.frag_token.specs.Reading.{Gives, kind_at, kind_of, truth_at, truth_of, width_at, width_of};

use crate::fault::Stop;
use crate::sign::Sign;
use crate::token::{first_word, left_at};
use frag_tree::BitKind;
use pac_base::Width;

/// Whether this is how the sign is spelled.
fn spells(sign: Sign, word: &[u8]) -> bool
    ensures { result ≡ bytes_eq (sign_word sign) word.now }
{
    sign.word() == word
}

/// The width whose type the word is.
#[tactic(auto, unfolding(crate::specs::Reading::width_of, crate::specs::Signs::sign_word))]
fn width_of(word: &[u8]) -> Option<Width>
    ensures { result ≡ width_of word.now }
{
    if spells(Sign::Type(Width::W8), word) {
        return Some(Width::W8);
    }
    if spells(Sign::Type(Width::W16), word) {
        return Some(Width::W16);
    }
    if spells(Sign::Type(Width::W32), word) {
        return Some(Width::W32);
    }
    if spells(Sign::Type(Width::W64), word) {
        return Some(Width::W64);
    }
    None
}

/// The truth that the word is.
#[tactic(auto, unfolding(crate::specs::Reading::truth_of, crate::specs::Signs::sign_word))]
fn truth_of(word: &[u8]) -> Option<bool>
    ensures { result ≡ truth_of word.now }
{
    if spells(Sign::Truth(true), word) {
        return Some(true);
    }
    if spells(Sign::Truth(false), word) {
        return Some(false);
    }
    None
}

/// The kind of bit whose writer the word is.
#[tactic(auto, unfolding(crate::specs::Reading::kind_of, crate::specs::Signs::sign_word))]
fn kind_of(word: &[u8]) -> Option<BitKind>
    ensures { result ≡ kind_of word.now }
{
    if spells(Sign::Kind(BitKind::Plain), word) {
        return Some(BitKind::Plain);
    }
    if spells(Sign::Kind(BitKind::OneToSet), word) {
        return Some(BitKind::OneToSet);
    }
    if spells(Sign::Kind(BitKind::ZeroToClear), word) {
        return Some(BitKind::ZeroToClear);
    }
    if spells(Sign::Kind(BitKind::OneToClear), word) {
        return Some(BitKind::OneToClear);
    }
    if spells(Sign::Kind(BitKind::ZeroToSet), word) {
        return Some(BitKind::ZeroToSet);
    }
    if spells(Sign::Kind(BitKind::OneToToggle), word) {
        return Some(BitKind::OneToToggle);
    }
    if spells(Sign::Kind(BitKind::ZeroToToggle), word) {
        return Some(BitKind::ZeroToToggle);
    }
    None
}

/// The type at the front of the text, as the width of its numbers, and what follows it.
#[tactic(auto, unfolding(crate::specs::Reading::width_at))]
pub fn width(text: &[u8]) -> Result<(Width, &[u8]), Stop>
    ensures { Gives (λ found. (found.0, words_in found.1.now)) result (width_at (words_in text.now)) }
{
    let (word, rest) = first_word(text)?;
    match width_of(word) {
        Some(width) => Ok((width, rest)),
        None => Err(Stop::Unfit {
            left: left_at(text),
        }),
    }
}

/// The truth at the front of the text, and what follows it.
#[tactic(auto, unfolding(crate::specs::Reading::truth_at))]
pub fn truth(text: &[u8]) -> Result<(bool, &[u8]), Stop>
    ensures { Gives (λ found. (found.0, words_in found.1.now)) result (truth_at (words_in text.now)) }
{
    let (word, rest) = first_word(text)?;
    match truth_of(word) {
        Some(truth) => Ok((truth, rest)),
        None => Err(Stop::Unfit {
            left: left_at(text),
        }),
    }
}

/// The writer of a bit at the front of the text, and what follows it.
#[tactic(auto, unfolding(crate::specs::Reading::kind_at))]
pub fn kind(text: &[u8]) -> Result<(BitKind, &[u8]), Stop>
    ensures { Gives (λ found. (found.0, words_in found.1.now)) result (kind_at (words_in text.now)) }
{
    let (word, rest) = first_word(text)?;
    match kind_of(word) {
        Some(kind) => Ok((kind, rest)),
        None => Err(Stop::Unfit {
            left: left_at(text),
        }),
    }
}
