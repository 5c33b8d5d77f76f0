ghost use Rattle.std.specs.Prelude.{◌≡◌};
ghost use Rattle.frag_words.specs.Words.{words_in};
ghost use Rattle.frag_token.specs.Reading.{Gives};
ghost use Rattle.frag_parts.specs.Reading.{bit_reading_at, bit_writing_at, field_bits_at, field_reading_at, field_writing_at, values_at, writing_at};

use crate::production::{NumberCalls, TruthCalls};
use frag_token::fault::Stop;
use frag_token::list::{Begins, braced};
use frag_token::numeral::decimal;
use frag_token::sign::Sign;
use frag_token::starts::Starts;
use frag_token::token::{expect, identifier, is_at};
use frag_token::word::{kind, width};
use frag_tree::{Identifier, Phrase, Values};
use pac_base::Width;
use std::alloc::Global;

/// Calls that test a bit.
#[tactic(auto, unfolding(crate::specs::Reading::bit_reading_at))]
fn bit_reading<'a>(
    alloc: Global,
    starts: &mut Starts,
    text: &'a [u8],
) -> Result<(Values, &'a [u8]), Stop>
    ensures { Gives (λ found. (found.0, words_in found.1.now)) result (bit_reading_at (words_in text.now)) }
{
    let rest = expect(text, Phrase::BitReaderImpl)?;
    let (marker, rest) = identifier(alloc, rest)?;
    let rest = expect(rest, Phrase::OpensCalls)?;
    let (calls, rest) = braced(
        alloc,
        starts,
        &TruthCalls { reads: true },
        Begins::Pub,
        rest,
    )?;
    Ok((Values::BitReading { marker, calls }, rest))
}

/// Calls that test a number.
#[tactic(auto, unfolding(crate::specs::Reading::field_reading_at))]
fn field_reading<'a>(
    alloc: Global,
    starts: &mut Starts,
    text: &'a [u8],
) -> Result<(Values, &'a [u8]), Stop>
    ensures { Gives (λ found. (found.0, words_in found.1.now)) result (field_reading_at (words_in text.now)) }
{
    let rest = expect(text, Phrase::FieldReaderImpl)?;
    let (marker, rest) = identifier(alloc, rest)?;
    let rest = expect(rest, Phrase::ThenNext)?;
    let (width, rest) = width(rest)?;
    let rest = expect(rest, Phrase::OpensCalls)?;
    let (calls, rest) = braced(
        alloc,
        starts,
        &NumberCalls { reads: true },
        Begins::Pub,
        rest,
    )?;
    let values = Values::FieldReading {
        marker,
        width,
        calls,
    };
    Ok((values, rest))
}

/// Calls that write a bit.
#[tactic(auto, unfolding(crate::specs::Reading::bit_writing_at))]
fn bit_writing<'a>(
    alloc: Global,
    starts: &mut Starts,
    text: &'a [u8],
) -> Result<(Values, &'a [u8]), Stop>
    ensures { Gives (λ found. (found.0, words_in found.1.now)) result (bit_writing_at (words_in text.now)) }
{
    let rest = expect(text, Phrase::WriterImpl)?;
    let (kind, rest) = kind(rest)?;
    let rest = expect(rest, Phrase::OfSpecInImpl)?;
    let (marker, rest) = identifier(alloc, rest)?;
    let rest = expect(rest, Phrase::OpensCalls)?;
    let (calls, rest) = braced(
        alloc,
        starts,
        &TruthCalls { reads: false },
        Begins::Pub,
        rest,
    )?;
    let values = Values::BitWriting {
        kind,
        marker,
        calls,
    };
    Ok((values, rest))
}

/// What stands behind the width of a block of calls that write a number.
#[tactic(auto, unfolding(crate::specs::Reading::field_bits_at))]
fn field_bits<'a>(
    alloc: Global,
    starts: &mut Starts,
    marker: Identifier,
    width: Width,
    text: &'a [u8],
) -> Result<(Values, &'a [u8]), Stop>
    ensures { Gives (λ found. (found.0, words_in found.1.now)) result (field_bits_at marker width (words_in text.now)) }
{
    let rest = expect(text, Phrase::ThenNext)?;
    let (bits, rest) = decimal(alloc, rest)?;
    let rest = expect(rest, Phrase::OpensCalls)?;
    let (calls, rest) = braced(
        alloc,
        starts,
        &NumberCalls { reads: false },
        Begins::Pub,
        rest,
    )?;
    let values = Values::FieldWriting {
        marker,
        width,
        bits,
        calls,
    };
    Ok((values, rest))
}

/// Calls that write a number.
#[tactic(auto, unfolding(crate::specs::Reading::field_writing_at))]
fn field_writing<'a>(
    alloc: Global,
    starts: &mut Starts,
    text: &'a [u8],
) -> Result<(Values, &'a [u8]), Stop>
    ensures { Gives (λ found. (found.0, words_in found.1.now)) result (field_writing_at (words_in text.now)) }
{
    let rest = expect(text, Phrase::FieldWriterImpl)?;
    let (marker, rest) = identifier(alloc, rest)?;
    let rest = expect(rest, Phrase::ThenNext)?;
    let (width, rest) = width(rest)?;
    field_bits(alloc, starts, marker, width, rest)
}

/// Calls that write a bit or a number.
#[tactic(auto, unfolding(crate::specs::Reading::writing_at))]
fn writing<'a>(
    alloc: Global,
    starts: &mut Starts,
    text: &'a [u8],
) -> Result<(Values, &'a [u8]), Stop>
    ensures { Gives (λ found. (found.0, words_in found.1.now)) result (writing_at (words_in text.now)) }
{
    if is_at(text, 4, Sign::FieldWriter) {
        field_writing(alloc, starts, text)
    } else {
        bit_writing(alloc, starts, text)
    }
}

/// A block of calls that stand for values.
#[tactic(auto, unfolding(crate::specs::Reading::values_at))]
pub(crate) fn values<'a>(
    alloc: Global,
    starts: &mut Starts,
    text: &'a [u8],
) -> Result<(Values, &'a [u8]), Stop>
    ensures { Gives (λ found. (found.0, words_in found.1.now)) result (values_at (words_in text.now)) }
{
    if is_at(text, 1, Sign::BitReader) {
        return bit_reading(alloc, starts, text);
    }
    if is_at(text, 1, Sign::FieldReader) {
        return field_reading(alloc, starts, text);
    }
    writing(alloc, starts, text)
}
