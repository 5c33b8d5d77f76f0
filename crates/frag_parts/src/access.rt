ghost use Rattle.std.specs.Prelude.{◌≡◌};
ghost use Rattle.frag_words.specs.Words.{words_in};
ghost use Rattle.frag_token.specs.Reading.{Gives};
ghost use Rattle.frag_parts.specs.Reading.{access_at, body_at, far_body_at, field_body_at, index_at, indexed_at, member_body_at, offset_body_at, own_body_at, plain_at, strided_body_at};

use crate::block::element;
use frag_token::fault::Stop;
use frag_token::numeral::{decimal, hexadecimal};
use frag_token::sign::Sign;
use frag_token::token::{expect, identifier, is_at};
use frag_tree::{Access, Body, Phrase};
use std::alloc::Global;

/// `&self.FIELD }`
#[tactic(auto, unfolding(crate::specs::Reading::field_body_at))]
fn field_body(alloc: Global, text: &[u8]) -> Result<(Body, &[u8]), Stop>
    ensures { Gives (λ found. (found.0, words_in found.1.now)) result (field_body_at (words_in text.now)) }
{
    let rest = expect(text, Phrase::FieldOfSelf)?;
    let (field, rest) = identifier(alloc, rest)?;
    let rest = expect(rest, Phrase::ClosesBody)?;
    Ok((Body::Field { field }, rest))
}

/// `&self.FIELD[n] }`
#[tactic(auto, unfolding(crate::specs::Reading::member_body_at))]
fn member_body(alloc: Global, text: &[u8]) -> Result<(Body, &[u8]), Stop>
    ensures { Gives (λ found. (found.0, words_in found.1.now)) result (member_body_at (words_in text.now)) }
{
    let rest = expect(text, Phrase::FieldOfSelf)?;
    let (field, rest) = identifier(alloc, rest)?;
    let rest = expect(rest, Phrase::ClosesMember)?;
    Ok((Body::Member { field }, rest))
}

/// `at(self, OFFSET) }`
#[tactic(auto, unfolding(crate::specs::Reading::offset_body_at))]
fn offset_body(alloc: Global, text: &[u8]) -> Result<(Body, &[u8]), Stop>
    ensures { Gives (λ found. (found.0, words_in found.1.now)) result (offset_body_at (words_in text.now)) }
{
    let rest = expect(text, Phrase::OpensAt)?;
    let (offset, rest) = hexadecimal(alloc, rest)?;
    let rest = expect(rest, Phrase::ClosesCall)?;
    Ok((Body::At { offset }, rest))
}

/// `at_index(self, OFFSET, STRIDE, COUNT, n) }`
#[tactic(auto, unfolding(crate::specs::Reading::strided_body_at))]
fn strided_body(alloc: Global, text: &[u8]) -> Result<(Body, &[u8]), Stop>
    ensures { Gives (λ found. (found.0, words_in found.1.now)) result (strided_body_at (words_in text.now)) }
{
    let rest = expect(text, Phrase::OpensAtIndex)?;
    let (offset, rest) = hexadecimal(alloc, rest)?;
    let rest = expect(rest, Phrase::ThenNext)?;
    let (stride, rest) = decimal(alloc, rest)?;
    let rest = expect(rest, Phrase::ThenNext)?;
    let (count, rest) = decimal(alloc, rest)?;
    let rest = expect(rest, Phrase::ClosesAtIndex)?;
    Ok((
        Body::AtIndex {
            offset,
            stride,
            count,
        },
        rest,
    ))
}

/// A body that leads to a field of the struct.
#[tactic(auto, unfolding(crate::specs::Reading::own_body_at))]
fn own_body(alloc: Global, text: &[u8]) -> Result<(Body, &[u8]), Stop>
    ensures { Gives (λ found. (found.0, words_in found.1.now)) result (own_body_at (words_in text.now)) }
{
    if is_at(text, 4, Sign::Closer) {
        field_body(alloc, text)
    } else {
        member_body(alloc, text)
    }
}

/// A body that leads to a place behind the start of the block.
#[tactic(auto, unfolding(crate::specs::Reading::far_body_at))]
fn far_body(alloc: Global, text: &[u8]) -> Result<(Body, &[u8]), Stop>
    ensures { Gives (λ found. (found.0, words_in found.1.now)) result (far_body_at (words_in text.now)) }
{
    if is_at(text, 0, Sign::At) {
        offset_body(alloc, text)
    } else {
        strided_body(alloc, text)
    }
}

/// The body of an accessor, and the brace behind it.
#[tactic(auto, unfolding(crate::specs::Reading::body_at))]
fn body(alloc: Global, text: &[u8]) -> Result<(Body, &[u8]), Stop>
    ensures { Gives (λ found. (found.0, words_in found.1.now)) result (body_at (words_in text.now)) }
{
    if is_at(text, 0, Sign::Reference) {
        own_body(alloc, text)
    } else {
        far_body(alloc, text)
    }
}

/// `(&self, n: usize) ->`
#[tactic(auto, unfolding(crate::specs::Reading::indexed_at))]
fn indexed(text: &[u8]) -> Result<(bool, &[u8]), Stop>
    ensures { Gives (λ found. (found.0, words_in found.1.now)) result (indexed_at (words_in text.now)) }
{
    let rest = expect(text, Phrase::Indexed)?;
    Ok((true, rest))
}

/// `(&self) ->`
#[tactic(auto, unfolding(crate::specs::Reading::plain_at))]
fn plain(text: &[u8]) -> Result<(bool, &[u8]), Stop>
    ensures { Gives (λ found. (found.0, words_in found.1.now)) result (plain_at (words_in text.now)) }
{
    let rest = expect(text, Phrase::Plain)?;
    Ok((false, rest))
}

/// Whether an accessor takes an index.
#[tactic(auto, unfolding(crate::specs::Reading::index_at))]
fn index(text: &[u8]) -> Result<(bool, &[u8]), Stop>
    ensures { Gives (λ found. (found.0, words_in found.1.now)) result (index_at (words_in text.now)) }
{
    if is_at(text, 3, Sign::Comma) {
        indexed(text)
    } else {
        plain(text)
    }
}

/// An accessor.
#[tactic(auto, unfolding(crate::specs::Reading::access_at))]
pub(crate) fn access(alloc: Global, text: &[u8]) -> Result<(Access, &[u8]), Stop>
    ensures { Gives (λ found. (found.0, words_in found.1.now)) result (access_at (words_in text.now)) }
{
    let rest = expect(text, Phrase::PubFn)?;
    let (name, rest) = identifier(alloc, rest)?;
    let (is_indexed, rest) = index(rest)?;
    let rest = expect(rest, Phrase::Reference)?;
    let (element, rest) = element(alloc, rest)?;
    let rest = expect(rest, Phrase::OpensBody)?;
    let (body, rest) = body(alloc, rest)?;
    let access = Access {
        name,
        is_indexed,
        element,
        body,
    };
    Ok((access, rest))
}
