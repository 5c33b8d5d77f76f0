ghost use Rattle.std.specs.Prelude.{◌≡◌, option_map};
ghost use Rattle.frag_script.specs.Reading.{Gives, atom_at, cast_of, closed_value_at, expects, negations_at, source_at, source_atom_at, source_of, truth_at, value_at, width_at};
ghost use Rattle.frag_script.specs.declared.fixed.Fixed.TheVariants.{As, Dot};
ghost use Rattle.frag_script.specs.Tokens.{tokens_in};

use crate::fault::LineFault;
use crate::field::field;
use crate::fixed::Fixed;
use crate::token::{after, expect, expect_empty, identifier, is, number};
use frag_tree::{Atom, Call, Identifier, Source, Value};
use pac_base::Width;
use std::alloc::Global;

/// What stands behind `READER.FIELD()` or `READER.FIELD(INDEX)`.
fn source_behind(
    alloc: Global,
    reader: Identifier,
    field: Call,
    text: &[u8],
) -> Result<(Source, &[u8]), LineFault>
    ensures { Gives (λ found. (found.0, tokens_in found.1.now)) result (source_of reader field (expects Dot (tokens_in text.now)) (tokens_in text.now)) }
{
    if let Some(behind) = after(text, Fixed::Dot) {
        let (method, rest) = identifier(alloc, behind)?;
        let end = expect_empty(rest)?;
        return Ok((
            Source::Field {
                reader,
                field,
                method,
            },
            end,
        ));
    }
    if is(&field.name, Fixed::Bits) {
        Ok((Source::Bits { reader }, text))
    } else {
        Err(LineFault::NotAStatement)
    }
}

/// `READER.bits()`, `READER.FIELD().METHOD()`, or `READER.FIELD(INDEX).METHOD()`
#[tactic(auto, unfolding(crate::specs::Reading::source_at))]
fn source(alloc: Global, text: &[u8]) -> Result<(Source, &[u8]), LineFault>
    ensures { Gives (λ found. (found.0, tokens_in found.1.now)) result (source_at (tokens_in text.now)) }
{
    let (reader, rest) = identifier(alloc, text)?;
    let rest = expect(rest, Fixed::Dot)?;
    let (field, rest) = field(alloc, rest)?;
    source_behind(alloc, reader, field, rest)
}

/// The truth at the front of the text.
#[tactic(auto, unfolding(crate::specs::Reading::truth_at))]
fn truth(text: &[u8]) -> Option<(bool, &[u8])>
    ensures { option_map (λ found. (found.0, tokens_in found.1.now)) result ≡ truth_at (tokens_in text.now) }
{
    if let Some(rest) = after(text, Fixed::Truth(true)) {
        return Some((true, rest));
    }
    let rest = after(text, Fixed::Truth(false))?;
    Some((false, rest))
}

/// The type of a number, by its width.
#[tactic(auto, unfolding(crate::specs::Reading::width_at))]
fn width(text: &[u8]) -> Result<(Width, &[u8]), LineFault>
    ensures { Gives (λ found. (found.0, tokens_in found.1.now)) result (width_at (tokens_in text.now)) }
{
    if let Some(rest) = after(text, Fixed::NumberType(Width::W8)) {
        return Ok((Width::W8, rest));
    }
    if let Some(rest) = after(text, Fixed::NumberType(Width::W16)) {
        return Ok((Width::W16, rest));
    }
    if let Some(rest) = after(text, Fixed::NumberType(Width::W32)) {
        return Ok((Width::W32, rest));
    }
    let rest = expect(text, Fixed::NumberType(Width::W64))?;
    Ok((Width::W64, rest))
}

/// A source, or a source as a number of another width.
#[tactic(auto, unfolding(crate::specs::Reading::source_atom_at))]
fn source_atom(alloc: Global, text: &[u8]) -> Result<(Atom, &[u8]), LineFault>
    ensures { Gives (λ found. (found.0, tokens_in found.1.now)) result (source_atom_at (tokens_in text.now)) }
{
    let (source, rest) = source(alloc, text)?;
    match after(rest, Fixed::As) {
        Some(behind) => {
            let (width, end) = width(behind)?;
            Ok((Atom::Cast { source, width }, end))
        }
        None => Ok((Atom::Source(source), rest)),
    }
}

/// A value without `!`.
#[tactic(auto, unfolding(crate::specs::Reading::atom_at))]
fn atom(alloc: Global, text: &[u8]) -> Result<(Atom, &[u8]), LineFault>
    ensures { Gives (λ found. (found.0, tokens_in found.1.now)) result (atom_at (tokens_in text.now)) }
{
    if let Some((number, rest)) = number(alloc, text)? {
        return Ok((Atom::Number(number), rest));
    }
    if let Some((truth, rest)) = truth(text) {
        return Ok((Atom::Truth(truth), rest));
    }
    source_atom(alloc, text)
}

/// How many `!` stand in front, and what follows them. A line that a script may have holds fewer
/// than 2^32.
#[tactic(auto, unfolding(crate::specs::Reading::negations, crate::specs::Reading::after_negations))]
fn split_negations(text: &[u8]) -> Result<(u32, &[u8]), LineFault>
    ensures { Gives (λ found. (found.0, tokens_in found.1.now)) result (negations_at (tokens_in text.now)) }
{
    let mut count: u32 = 0;
    let mut rest = text;
    while let Some(after) = after(rest, Fixed::Negation) {
        let Some(more) = count.checked_add(1) else {
            return Err(LineFault::Memory);
        };
        count = more;
        rest = after;
    }
    Ok((count, rest))
}

/// A value, behind any number of `!`.
#[tactic(auto, unfolding(crate::specs::Reading::value_at))]
fn value(alloc: Global, text: &[u8]) -> Result<(Value, &[u8]), LineFault>
    ensures { Gives (λ found. (found.0, tokens_in found.1.now)) result (value_at (tokens_in text.now)) }
{
    let (negations, rest) = split_negations(text)?;
    let (atom, rest) = atom(alloc, rest)?;
    Ok((Value { negations, atom }, rest))
}

/// `VALUE )`
#[tactic(auto, unfolding(crate::specs::Reading::closed_value_at))]
pub(crate) fn closed_value(alloc: Global, text: &[u8]) -> Result<(Value, &[u8]), LineFault>
    ensures { Gives (λ found. (found.0, tokens_in found.1.now)) result (closed_value_at (tokens_in text.now)) }
{
    let (value, rest) = value(alloc, text)?;
    let rest = expect(rest, Fixed::Closer)?;
    Ok((value, rest))
}
