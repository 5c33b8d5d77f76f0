ghost use Rattle.std.specs.Prelude.{◌≡◌, ◌∷◌};
ghost use Rattle.frag_words.specs.Readings.{nth};
ghost use Rattle.frag_words.specs.Words.{words_in};
ghost use Rattle.frag_token.specs.Reading.{Gives, expects, first_at, impl_at, is_end, name_at, name_of, phrase_at, sign_at, sign_then, word_then};

use crate::fault::Stop;
use crate::sign::Sign;
use frag_tree::{Identifier, IdentifierFault, Phrase};
use frag_words::next_word;
use std::alloc::Global;

/// How many bytes are left from the first word of the text on.
pub fn left_at(text: &[u8]) -> usize {
    match next_word(text) {
        Some((word, after)) => word.len().saturating_add(after.len()),
        None => 0,
    }
}

/// The first word of the text, and what follows it.
#[tactic(auto, unfolding(crate::specs::Reading::first_at))]
pub fn first_word(text: &[u8]) -> Result<(&[u8], &[u8]), Stop>
    ensures { Gives (λ found. (found.0.now, words_in found.1.now)) result (first_at (words_in text.now)) }
{
    match next_word(text) {
        Some((word, rest)) => Ok((word, rest)),
        None => Err(Stop::Unfit { left: 0 }),
    }
}

/// What follows the word, with which the text begins.
#[tactic(auto, unfolding(crate::specs::Reading::word_then))]
fn after_word<'a>(text: &'a [u8], word: &[u8]) -> Result<&'a [u8], Stop>
    ensures { Gives (λ rest. words_in rest.now) result (word_then word.now (words_in text.now)) }
{
    let (first, rest) = first_word(text)?;
    if word == first {
        Ok(rest)
    } else {
        Err(Stop::Unfit {
            left: left_at(text),
        })
    }
}

/// What follows the words of one text, with which another begins.
fn after_words<'a>(text: &'a [u8], words: &[u8]) -> Result<&'a [u8], Stop>
    ensures { Gives (λ rest. words_in rest.now) result (expects (words_in words.now) (words_in text.now)) }
{
    let mut rest = text;
    let mut wanted = words;
    while let Some((word, others)) = next_word(wanted) {
        rest = after_word(rest, word)?;
        wanted = others;
    }
    Ok(rest)
}

/// What follows the fixed text, with which the text begins.
#[tactic(auto, unfolding(crate::specs::Reading::phrase_at))]
pub fn expect(text: &[u8], phrase: Phrase) -> Result<&[u8], Stop>
    ensures { Gives (λ rest. words_in rest.now) result (phrase_at phrase (words_in text.now)) }
{
    after_words(text, phrase.text())
}

/// What follows the word, with which the text begins.
#[tactic(auto, unfolding(crate::specs::Reading::sign_then))]
pub fn expect_sign(text: &[u8], sign: Sign) -> Result<&[u8], Stop>
    ensures { Gives (λ rest. words_in rest.now) result (sign_then sign (words_in text.now)) }
{
    after_word(text, sign.word())
}

/// The word at a place of the text, counted from 0; the empty word behind the end.
fn nth_word(text: &[u8], place: usize) -> &[u8]
    ensures { result.now ≡ nth place (words_in text.now) }
{
    match next_word(text) {
        Some((word, rest)) => match place.checked_sub(1) {
            Some(before) => nth_word(rest, before),
            None => word,
        },
        None => &[],
    }
}

/// Whether the word stands at the place, counted from 0.
#[tactic(auto, unfolding(crate::specs::Reading::sign_at))]
pub fn is_at(text: &[u8], place: usize, sign: Sign) -> bool
    ensures { result ≡ sign_at place sign (words_in text.now) }
{
    nth_word(text, place) == sign.word()
}

/// Whether an `impl` block of this kind begins.
#[tactic(auto, unfolding(crate::specs::Reading::impl_at))]
pub fn is_impl(text: &[u8], kind: Sign) -> bool
    ensures { result ≡ impl_at kind (words_in text.now) }
{
    is_at(text, 0, Sign::Impl) && is_at(text, 1, kind)
}

/// The identifier that the word is; the text begins with it.
fn named(alloc: Global, text: &[u8], word: &[u8]) -> Result<Identifier, Stop>
    ensures { Gives (λ name. name) result (name_of word.now) }
{
    match Identifier::new(alloc, word) {
        Ok(name) => Ok(name),
        Err(IdentifierFault::NotAnIdentifier) => Err(Stop::Unfit {
            left: left_at(text),
        }),
        Err(IdentifierFault::Memory) => Err(Stop::Memory),
    }
}

/// The identifier at the front of the text, and what follows it.
#[tactic(auto, unfolding(crate::specs::Reading::name_at))]
pub fn identifier(alloc: Global, text: &[u8]) -> Result<(Identifier, &[u8]), Stop>
    ensures { Gives (λ found. (found.0, words_in found.1.now)) result (name_at (words_in text.now)) }
{
    let (word, rest) = first_word(text)?;
    let name = named(alloc, text, word)?;
    Ok((name, rest))
}

/// Whether the text holds no word.
pub fn is_end(text: &[u8]) -> bool
    ensures { result ≡ is_end (words_in text.now) }
{
    match next_word(text) {
        Some(_) => false,
        None => true,
    }
}
