ghost use Rattle.std.specs.Prelude.{◌≡◌, option_map};
ghost use Rattle.std.specs.Str.{bytes_eq};
ghost use Rattle.frag_script.specs.FixedWords.{text_of};
ghost use Rattle.frag_script.specs.Reading.{Gives, empty_at, expects, is_end, name_at, number_at};
ghost use Rattle.frag_script.specs.Tokens.{tokens_in};

use crate::fault::LineFault;
use crate::fixed::Fixed;
use crate::number::number_in;
use frag_tree::{Identifier, IdentifierFault};
use frag_words::next_word;
use std::alloc::Global;

/// What follows the fixed word, where the text begins with it.
pub(crate) fn after(text: &[u8], fixed: Fixed) -> Option<&[u8]>
    ensures { option_map (λ rest. tokens_in rest.now) result ≡ expects fixed (tokens_in text.now) }
{
    let Some((word, rest)) = next_word(text) else {
        return None;
    };
    if word == fixed.text() {
        Some(rest)
    } else {
        None
    }
}

/// What follows the fixed word, with which the text begins.
pub(crate) fn expect(text: &[u8], fixed: Fixed) -> Result<&[u8], LineFault>
    ensures { Gives (λ rest. tokens_in rest.now) result (expects fixed (tokens_in text.now)) }
{
    after(text, fixed).ok_or(LineFault::NotAStatement)
}

/// What follows `()`, with which the text begins.
#[tactic(auto, unfolding(crate::specs::Reading::empty_at))]
pub(crate) fn expect_empty(text: &[u8]) -> Result<&[u8], LineFault>
    ensures { Gives (λ rest. tokens_in rest.now) result (empty_at (tokens_in text.now)) }
{
    let inside = expect(text, Fixed::Opener)?;
    expect(inside, Fixed::Closer)
}

/// The identifier at the front of the text, and what follows it.
pub(crate) fn identifier(alloc: Global, text: &[u8]) -> Result<(Identifier, &[u8]), LineFault>
    ensures { Gives (λ found. (found.0, tokens_in found.1.now)) result (name_at (tokens_in text.now)) }
{
    let Some((word, rest)) = next_word(text) else {
        return Err(LineFault::NotAStatement);
    };
    match Identifier::new(alloc, word) {
        Ok(name) => Ok((name, rest)),
        Err(IdentifierFault::NotAnIdentifier) => Err(LineFault::NotAStatement),
        Err(IdentifierFault::Memory) => Err(LineFault::Memory),
    }
}

/// The number at the front of the text, and what follows it; `None` where something else stands there.
pub(crate) fn number(alloc: Global, text: &[u8]) -> Result<Option<(u64, &[u8])>, LineFault>
    ensures { Gives (λ found. option_map (λ p. (p.0, tokens_in p.1.now)) found) result (Some (number_at (tokens_in text.now))) }
{
    let Some((word, rest)) = next_word(text) else {
        return Ok(None);
    };
    match number_in(alloc, word)? {
        Some(number) => Ok(Some((number, rest))),
        None => Ok(None),
    }
}

/// Whether the name is the fixed word.
pub(crate) fn is(name: &Identifier, fixed: Fixed) -> bool
    ensures { result ≡ bytes_eq name.now (text_of fixed) }
{
    name.bytes() == fixed.text()
}

/// Whether the text holds no word.
pub(crate) fn is_end(text: &[u8]) -> bool
    ensures { result ≡ is_end (tokens_in text.now) }
{
    match next_word(text) {
        Some(_) => false,
        None => true,
    }
}
