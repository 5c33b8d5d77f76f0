ghost use Rattle.std.specs.Prelude.{◌≡◌};
ghost use Rattle.frag_words.specs.Words.{words_in};
ghost use Rattle.frag_token.specs.Reading.{Gives};
ghost use Rattle.frag_parts.specs.Reading.{constant_at, marker_at, readable_at, reset_at, writable_at, writable_part_at};

use frag_token::fault::Stop;
use frag_token::numeral::hexadecimal;
use frag_token::sign::Sign;
use frag_token::token::{expect, identifier, is_impl};
use frag_token::word::width;
use frag_tree::{Constant, Identifier, Phrase, Writable};
use std::alloc::Global;

/// `NAME: TYPE = VALUE;`, where the text of the phrase ends with the name.
#[tactic(auto, unfolding(crate::specs::Reading::constant_at))]
fn constant(alloc: Global, name: Phrase, text: &[u8]) -> Result<(Constant, &[u8]), Stop>
    ensures { Gives (λ found. (found.0, words_in found.1.now)) result (constant_at name (words_in text.now)) }
{
    let rest = expect(text, name)?;
    let (width, rest) = width(rest)?;
    let rest = expect(rest, Phrase::Equals)?;
    let (value, rest) = hexadecimal(alloc, rest)?;
    let rest = expect(rest, Phrase::Semicolon)?;
    Ok((Constant { width, value }, rest))
}

/// `impl Writable for Spec { .. }`
#[tactic(auto, unfolding(crate::specs::Reading::writable_at))]
fn writable(alloc: Global, text: &[u8]) -> Result<(Writable, &[u8]), Stop>
    ensures { Gives (λ found. (found.0, words_in found.1.now)) result (writable_at (words_in text.now)) }
{
    let rest = expect(text, Phrase::WritableImpl)?;
    let (zero_to_modify, rest) = constant(alloc, Phrase::ZeroToModify, rest)?;
    let (one_to_modify, rest) = constant(alloc, Phrase::OneToModify, rest)?;
    let rest = expect(rest, Phrase::Closer)?;
    let writable = Writable {
        zero_to_modify,
        one_to_modify,
    };
    Ok((writable, rest))
}

/// `impl Resettable for Spec { .. }`
#[tactic(auto, unfolding(crate::specs::Reading::reset_at))]
pub(crate) fn reset(alloc: Global, text: &[u8]) -> Result<(Constant, &[u8]), Stop>
    ensures { Gives (λ found. (found.0, words_in found.1.now)) result (reset_at (words_in text.now)) }
{
    let rest = expect(text, Phrase::ResettableImpl)?;
    let (constant, rest) = constant(alloc, Phrase::ResetValue, rest)?;
    let rest = expect(rest, Phrase::Closer)?;
    Ok((constant, rest))
}

/// `impl Readable for Spec {}`, or nothing.
#[tactic(auto, unfolding(crate::specs::Reading::readable_at))]
pub(crate) fn readable(text: &[u8]) -> Result<(bool, &[u8]), Stop>
    ensures { Gives (λ found. (found.0, words_in found.1.now)) result (readable_at (words_in text.now)) }
{
    if is_impl(text, Sign::Readable) {
        let rest = expect(text, Phrase::ReadableImpl)?;
        return Ok((true, rest));
    }
    Ok((false, text))
}

/// `impl Writable for Spec { .. }`, or nothing.
#[tactic(auto, unfolding(crate::specs::Reading::writable_part_at))]
pub(crate) fn writable_part(alloc: Global, text: &[u8]) -> Result<(Option<Writable>, &[u8]), Stop>
    ensures { Gives (λ found. (found.0, words_in found.1.now)) result (writable_part_at (words_in text.now)) }
{
    if is_impl(text, Sign::Writable) {
        let (writable, rest) = writable(alloc, text)?;
        return Ok((Some(writable), rest));
    }
    Ok((None, text))
}

/// `pub struct MARKER;`
#[tactic(auto, unfolding(crate::specs::Reading::marker_at))]
pub(crate) fn marker(alloc: Global, text: &[u8]) -> Result<(Identifier, &[u8]), Stop>
    ensures { Gives (λ found. (found.0, words_in found.1.now)) result (marker_at (words_in text.now)) }
{
    let rest = expect(text, Phrase::PubStruct)?;
    let (name, rest) = identifier(alloc, rest)?;
    let rest = expect(rest, Phrase::ClosesMarker)?;
    Ok((name, rest))
}
