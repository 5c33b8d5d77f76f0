ghost use Rattle.std.specs.Prelude.{◌≡◌};
ghost use Rattle.frag_words.specs.Words.{words_in};
ghost use Rattle.frag_tree.specs.RegisterProductions.{reader_type};
ghost use Rattle.frag_token.specs.Reading.{Gives, sign_at};
ghost use Rattle.frag_parts.specs.Reading.{bit_form_at, bit_reader_at, field_form_at, field_reader_at, reader_at, typed_reader_at};
ghost use Rattle.frag_token.specs.declared.sign.Sign.TheVariants.{BitReader};

use frag_token::fault::Stop;
use frag_token::numeral::hexadecimal;
use frag_token::sign::Sign;
use frag_token::spot::{expect_receiver, spot, takes_index};
use frag_token::token::{expect, expect_sign, identifier, is_at};
use frag_token::word::width;
use frag_tree::{Identifier, Phrase, ReadForm, Reader, Version};
use pac_base::Width;
use std::alloc::Global;

/// What stands behind the marker of a reader of a bit.
#[tactic(auto, unfolding(crate::specs::Reading::bit_form_at))]
fn bit_form(
    alloc: Global,
    is_indexed: bool,
    name: Identifier,
    marker: Identifier,
    text: &[u8],
) -> Result<(Reader, &[u8]), Stop>
    ensures { Gives (λ found. (found.0, words_in found.1.now)) result (bit_form_at is_indexed name marker (words_in text.now)) }
{
    let rest = expect(text, Phrase::NewBitReader)?;
    let (spot, rest) = spot(alloc, is_indexed, rest)?;
    let rest = expect(rest, Phrase::ThenMask)?;
    let (mask, rest) = hexadecimal(alloc, rest)?;
    let rest = expect(rest, Phrase::ClosesBitReader)?;
    let form = ReadForm::Bit { spot, mask };
    Ok((Reader { name, marker, form }, rest))
}

/// A call that reads a bit.
#[tactic(auto, unfolding(crate::specs::Reading::bit_reader_at))]
fn bit_reader(alloc: Global, is_indexed: bool, text: &[u8]) -> Result<(Reader, &[u8]), Stop>
    ensures { Gives (λ found. (found.0, words_in found.1.now)) result (bit_reader_at is_indexed (words_in text.now)) }
{
    let rest = expect(text, Phrase::PubFn)?;
    let (name, rest) = identifier(alloc, rest)?;
    let rest = expect_receiver(rest, is_indexed)?;
    let rest = expect(rest, Phrase::OfBitReader)?;
    let (marker, rest) = identifier(alloc, rest)?;
    bit_form(alloc, is_indexed, name, marker, rest)
}

/// What stands behind the type of a reader of a number.
#[tactic(auto, unfolding(crate::specs::Reading::field_form_at))]
fn field_form(
    alloc: Global,
    is_indexed: bool,
    name: Identifier,
    marker: Identifier,
    width: Width,
    text: &[u8],
) -> Result<(Reader, &[u8]), Stop>
    ensures { Gives (λ found. (found.0, words_in found.1.now)) result (field_form_at is_indexed name marker width (words_in text.now)) }
{
    let rest = expect(text, Phrase::NewFieldReader)?;
    let (spot, rest) = spot(alloc, is_indexed, rest)?;
    let rest = expect(rest, Phrase::ThenMask)?;
    let (mask, rest) = hexadecimal(alloc, rest)?;
    let rest = expect(rest, Phrase::ThenCast)?;
    let rest = expect_sign(rest, Sign::Type(width))?;
    let rest = expect(rest, Phrase::ClosesCall)?;
    let form = ReadForm::Field { width, spot, mask };
    Ok((Reader { name, marker, form }, rest))
}

/// A call that reads a number.
#[tactic(auto, unfolding(crate::specs::Reading::field_reader_at))]
fn field_reader(alloc: Global, is_indexed: bool, text: &[u8]) -> Result<(Reader, &[u8]), Stop>
    ensures { Gives (λ found. (found.0, words_in found.1.now)) result (field_reader_at is_indexed (words_in text.now)) }
{
    let rest = expect(text, Phrase::PubFn)?;
    let (name, rest) = identifier(alloc, rest)?;
    let rest = expect_receiver(rest, is_indexed)?;
    let rest = expect(rest, Phrase::OfFieldReader)?;
    let (marker, rest) = identifier(alloc, rest)?;
    let rest = expect(rest, Phrase::ThenNext)?;
    let (width, rest) = width(rest)?;
    field_form(alloc, is_indexed, name, marker, width, rest)
}

/// Whether the call reads a bit.
fn reads_bit(is_indexed: bool, text: &[u8]) -> bool
    ensures { result ≡ sign_at (reader_type is_indexed) BitReader (words_in text.now) }
{
    if is_indexed {
        is_at(text, 12, Sign::BitReader)
    } else {
        is_at(text, 8, Sign::BitReader)
    }
}

/// A call that reads a field, with an index or without.
#[tactic(auto, unfolding(crate::specs::Reading::typed_reader_at))]
fn typed_reader(alloc: Global, is_indexed: bool, text: &[u8]) -> Result<(Reader, &[u8]), Stop>
    ensures { Gives (λ found. (found.0, words_in found.1.now)) result (typed_reader_at is_indexed (words_in text.now)) }
{
    if reads_bit(is_indexed, text) {
        bit_reader(alloc, is_indexed, text)
    } else {
        field_reader(alloc, is_indexed, text)
    }
}

/// A call that reads a field. In version 1 none takes an index.
#[tactic(auto, unfolding(crate::specs::Reading::reader_at))]
pub(crate) fn reader(alloc: Global, version: Version, text: &[u8]) -> Result<(Reader, &[u8]), Stop>
    ensures { Gives (λ found. (found.0, words_in found.1.now)) result (reader_at version (words_in text.now)) }
{
    if takes_index(version, text, 6) {
        typed_reader(alloc, true, text)
    } else {
        typed_reader(alloc, false, text)
    }
}
