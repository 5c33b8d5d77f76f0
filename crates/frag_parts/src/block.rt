ghost use Rattle.std.specs.Prelude.{◌≡◌};
ghost use Rattle.frag_words.specs.Words.{words_in};
ghost use Rattle.frag_token.specs.Reading.{Gives};
ghost use Rattle.frag_parts.specs.Reading.{array_at, block_element_at, element_at, field_at, gap_at, register_element_at, single_at, type_at};

use frag_token::fault::Stop;
use frag_token::numeral::decimal;
use frag_token::sign::Sign;
use frag_token::token::{expect, identifier, is_at};
use frag_tree::{Element, FieldType, Phrase, StructField};
use std::alloc::Global;

/// `Reg<MODULE::Spec>`
#[tactic(auto, unfolding(crate::specs::Reading::register_element_at))]
fn register_element(alloc: Global, text: &[u8]) -> Result<(Element, &[u8]), Stop>
    ensures { Gives (λ found. (found.0, words_in found.1.now)) result (register_element_at (words_in text.now)) }
{
    let rest = expect(text, Phrase::OpensReg)?;
    let (module, rest) = identifier(alloc, rest)?;
    let rest = expect(rest, Phrase::ClosesReg)?;
    Ok((Element::Register { module }, rest))
}

/// `MODULE::RegisterBlock`
#[tactic(auto, unfolding(crate::specs::Reading::block_element_at))]
fn block_element(alloc: Global, text: &[u8]) -> Result<(Element, &[u8]), Stop>
    ensures { Gives (λ found. (found.0, words_in found.1.now)) result (block_element_at (words_in text.now)) }
{
    let (module, rest) = identifier(alloc, text)?;
    let rest = expect(rest, Phrase::OfBlock)?;
    Ok((Element::Block { module }, rest))
}

/// What an accessor or a field leads to.
#[tactic(auto, unfolding(crate::specs::Reading::element_at))]
pub(crate) fn element(alloc: Global, text: &[u8]) -> Result<(Element, &[u8]), Stop>
    ensures { Gives (λ found. (found.0, words_in found.1.now)) result (element_at (words_in text.now)) }
{
    if is_at(text, 1, Sign::Less) {
        register_element(alloc, text)
    } else {
        block_element(alloc, text)
    }
}

/// `[u8; BYTES]`
#[tactic(auto, unfolding(crate::specs::Reading::gap_at))]
fn gap(alloc: Global, text: &[u8]) -> Result<(FieldType, &[u8]), Stop>
    ensures { Gives (λ found. (found.0, words_in found.1.now)) result (gap_at (words_in text.now)) }
{
    let rest = expect(text, Phrase::OpensGap)?;
    let (bytes, rest) = decimal(alloc, rest)?;
    let rest = expect(rest, Phrase::ClosesArray)?;
    Ok((FieldType::Gap { bytes }, rest))
}

/// `[ELEMENT; COUNT]`
#[tactic(auto, unfolding(crate::specs::Reading::array_at))]
fn array(alloc: Global, text: &[u8]) -> Result<(FieldType, &[u8]), Stop>
    ensures { Gives (λ found. (found.0, words_in found.1.now)) result (array_at (words_in text.now)) }
{
    let rest = expect(text, Phrase::OpensArray)?;
    let (element, rest) = element(alloc, rest)?;
    let rest = expect(rest, Phrase::Semicolon)?;
    let (count, rest) = decimal(alloc, rest)?;
    let rest = expect(rest, Phrase::ClosesArray)?;
    Ok((FieldType::Array { element, count }, rest))
}

/// One element.
#[tactic(auto, unfolding(crate::specs::Reading::single_at))]
fn single(alloc: Global, text: &[u8]) -> Result<(FieldType, &[u8]), Stop>
    ensures { Gives (λ found. (found.0, words_in found.1.now)) result (single_at (words_in text.now)) }
{
    let (element, rest) = element(alloc, text)?;
    Ok((FieldType::One(element), rest))
}

/// The type of a struct's field.
#[tactic(auto, unfolding(crate::specs::Reading::type_at))]
fn field_type(alloc: Global, text: &[u8]) -> Result<(FieldType, &[u8]), Stop>
    ensures { Gives (λ found. (found.0, words_in found.1.now)) result (type_at (words_in text.now)) }
{
    if !is_at(text, 0, Sign::Bracket) {
        return single(alloc, text);
    }
    if is_at(text, 2, Sign::Semicolon) {
        gap(alloc, text)
    } else {
        array(alloc, text)
    }
}

/// `NAME: TYPE,`
#[tactic(auto, unfolding(crate::specs::Reading::field_at))]
pub(crate) fn field(alloc: Global, text: &[u8]) -> Result<(StructField, &[u8]), Stop>
    ensures { Gives (λ found. (found.0, words_in found.1.now)) result (field_at (words_in text.now)) }
{
    let (name, rest) = identifier(alloc, text)?;
    let rest = expect(rest, Phrase::Colon)?;
    let (holds, rest) = field_type(alloc, rest)?;
    let rest = expect(rest, Phrase::Comma)?;
    Ok((StructField { name, holds }, rest))
}
