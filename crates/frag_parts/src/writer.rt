ghost use Rattle.std.specs.Prelude.{◌≡◌};
ghost use Rattle.frag_words.specs.Words.{words_in};
ghost use Rattle.frag_tree.specs.RegisterProductions.{writer_type};
ghost use Rattle.frag_token.specs.Reading.{Gives, sign_at};
ghost use Rattle.frag_parts.specs.Reading.{bit_place_at, bit_writer_at, field_place_at, field_writer_at, typed_writer_at, writer_at};
ghost use Rattle.frag_token.specs.declared.sign.Sign.TheVariants.{FieldWriter};

use frag_token::fault::Stop;
use frag_token::numeral::decimal;
use frag_token::sign::Sign;
use frag_token::spot::{expect_receiver_mut, spot, takes_index};
use frag_token::token::{expect, expect_sign, identifier, is_at};
use frag_token::word::{kind, width};
use frag_tree::{BitKind, Identifier, Phrase, Version, WriteForm, Writer};
use std::alloc::Global;

/// What stands behind the marker of a writer of a number.
#[tactic(auto, unfolding(crate::specs::Reading::field_place_at))]
fn field_place(
    alloc: Global,
    is_indexed: bool,
    name: Identifier,
    marker: Identifier,
    text: &[u8],
) -> Result<(Writer, &[u8]), Stop>
    ensures { Gives (λ found. (found.0, words_in found.1.now)) result (field_place_at is_indexed name marker (words_in text.now)) }
{
    let rest = expect(text, Phrase::ThenNext)?;
    let (width, rest) = width(rest)?;
    let rest = expect(rest, Phrase::ThenNext)?;
    let (bits, rest) = decimal(alloc, rest)?;
    let rest = expect(rest, Phrase::NewFieldWriter)?;
    let (spot, rest) = spot(alloc, is_indexed, rest)?;
    let rest = expect(rest, Phrase::ClosesCall)?;
    let form = WriteForm::Field { width, bits, spot };
    Ok((Writer { name, marker, form }, rest))
}

/// A call that writes a number.
#[tactic(auto, unfolding(crate::specs::Reading::field_writer_at))]
fn field_writer(alloc: Global, is_indexed: bool, text: &[u8]) -> Result<(Writer, &[u8]), Stop>
    ensures { Gives (λ found. (found.0, words_in found.1.now)) result (field_writer_at is_indexed (words_in text.now)) }
{
    let rest = expect(text, Phrase::PubFn)?;
    let (name, rest) = identifier(alloc, rest)?;
    let rest = expect_receiver_mut(rest, is_indexed)?;
    let rest = expect(rest, Phrase::OfFieldWriter)?;
    let (marker, rest) = identifier(alloc, rest)?;
    field_place(alloc, is_indexed, name, marker, rest)
}

/// What stands behind the marker of a writer of a bit.
#[tactic(auto, unfolding(crate::specs::Reading::bit_place_at))]
fn bit_place(
    alloc: Global,
    is_indexed: bool,
    name: Identifier,
    kind: BitKind,
    marker: Identifier,
    text: &[u8],
) -> Result<(Writer, &[u8]), Stop>
    ensures { Gives (λ found. (found.0, words_in found.1.now)) result (bit_place_at is_indexed name kind marker (words_in text.now)) }
{
    let rest = expect(text, Phrase::ThenBody)?;
    let rest = expect_sign(rest, Sign::Kind(kind))?;
    let rest = expect(rest, Phrase::NewOnSelf)?;
    let (spot, rest) = spot(alloc, is_indexed, rest)?;
    let rest = expect(rest, Phrase::ClosesCall)?;
    let form = WriteForm::Bit { kind, spot };
    Ok((Writer { name, marker, form }, rest))
}

/// A call that writes a bit.
#[tactic(auto, unfolding(crate::specs::Reading::bit_writer_at))]
fn bit_writer(alloc: Global, is_indexed: bool, text: &[u8]) -> Result<(Writer, &[u8]), Stop>
    ensures { Gives (λ found. (found.0, words_in found.1.now)) result (bit_writer_at is_indexed (words_in text.now)) }
{
    let rest = expect(text, Phrase::PubFn)?;
    let (name, rest) = identifier(alloc, rest)?;
    let rest = expect_receiver_mut(rest, is_indexed)?;
    let (kind, rest) = kind(rest)?;
    let rest = expect(rest, Phrase::OfSpec)?;
    let (marker, rest) = identifier(alloc, rest)?;
    bit_place(alloc, is_indexed, name, kind, marker, rest)
}

/// Whether the call writes a number.
fn writes_number(is_indexed: bool, text: &[u8]) -> bool
    ensures { result ≡ sign_at (writer_type is_indexed) FieldWriter (words_in text.now) }
{
    if is_indexed {
        is_at(text, 13, Sign::FieldWriter)
    } else {
        is_at(text, 9, Sign::FieldWriter)
    }
}

/// A call that writes a field, with an index or without.
#[tactic(auto, unfolding(crate::specs::Reading::typed_writer_at))]
fn typed_writer(alloc: Global, is_indexed: bool, text: &[u8]) -> Result<(Writer, &[u8]), Stop>
    ensures { Gives (λ found. (found.0, words_in found.1.now)) result (typed_writer_at is_indexed (words_in text.now)) }
{
    if writes_number(is_indexed, text) {
        field_writer(alloc, is_indexed, text)
    } else {
        bit_writer(alloc, is_indexed, text)
    }
}

/// A call that writes a field. In version 1 none takes an index.
#[tactic(auto, unfolding(crate::specs::Reading::writer_at))]
pub(crate) fn writer(alloc: Global, version: Version, text: &[u8]) -> Result<(Writer, &[u8]), Stop>
    ensures { Gives (λ found. (found.0, words_in found.1.now)) result (writer_at version (words_in text.now)) }
{
    if takes_index(version, text, 7) {
        typed_writer(alloc, true, text)
    } else {
        typed_writer(alloc, false, text)
    }
}
