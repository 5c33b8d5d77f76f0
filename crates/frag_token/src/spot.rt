ghost use Rattle.std.specs.Prelude.{◌≡◌, ◌&&◌};
ghost use Rattle.frag_words.specs.Words.{words_in};
ghost use Rattle.frag_tree.specs.Phrases.{receiver, receiver_mut};
ghost use Rattle.frag_tree.specs.Trees.{takes_index};
ghost use Rattle.frag_token.specs.Reading.{Gives, at_bit_at, phrase_at, place_at, sign_at, spot_at};
ghost use Rattle.frag_token.specs.declared.sign.Sign.TheVariants.{Comma};

use crate::fault::Stop;
use crate::numeral::decimal;
use crate::sign::Sign;
use crate::token::{expect, is_at};
use frag_tree::{Phrase, Spot, Version};
use std::alloc::Global;

/// Whether a call of a field takes an index, which a comma at this place tells; in version 1 none does.
pub fn takes_index(version: Version, text: &[u8], place: usize) -> bool
    ensures { result ≡ (takes_index version && sign_at place Comma (words_in text.now)) }
{
    version.takes_index() && is_at(text, place, Sign::Comma)
}

/// What follows `(&self) ->`, or `(&self, n: usize) ->`
pub fn expect_receiver(text: &[u8], is_indexed: bool) -> Result<&[u8], Stop>
    ensures { Gives (λ rest. words_in rest.now) result (phrase_at (receiver is_indexed) (words_in text.now)) }
{
    if is_indexed {
        expect(text, Phrase::Indexed)
    } else {
        expect(text, Phrase::Plain)
    }
}

/// What follows `(&mut self) ->`, or `(&mut self, n: usize) ->`
pub fn expect_receiver_mut(text: &[u8], is_indexed: bool) -> Result<&[u8], Stop>
    ensures { Gives (λ rest. words_in rest.now) result (phrase_at (receiver_mut is_indexed) (words_in text.now)) }
{
    if is_indexed {
        expect(text, Phrase::IndexedMut)
    } else {
        expect(text, Phrase::PlainMut)
    }
}

/// `at_bit(OFFSET, STEP, COUNT, n)`
#[tactic(auto, unfolding(crate::specs::Reading::at_bit_at))]
fn at_bit(alloc: Global, text: &[u8]) -> Result<(Spot, &[u8]), Stop>
    ensures { Gives (λ found. (found.0, words_in found.1.now)) result (at_bit_at (words_in text.now)) }
{
    let rest = expect(text, Phrase::OpensAtBit)?;
    let (offset, rest) = decimal(alloc, rest)?;
    let rest = expect(rest, Phrase::ThenNext)?;
    let (step, rest) = decimal(alloc, rest)?;
    let rest = expect(rest, Phrase::ThenNext)?;
    let (count, rest) = decimal(alloc, rest)?;
    let rest = expect(rest, Phrase::ClosesAtBit)?;
    let spot = Spot::Indexed {
        offset,
        step,
        count,
    };
    Ok((spot, rest))
}

/// `PLACE`
#[tactic(auto, unfolding(crate::specs::Reading::place_at))]
fn place(alloc: Global, text: &[u8]) -> Result<(Spot, &[u8]), Stop>
    ensures { Gives (λ found. (found.0, words_in found.1.now)) result (place_at (words_in text.now)) }
{
    let (place, rest) = decimal(alloc, text)?;
    Ok((Spot::Fixed(place), rest))
}

/// Where a field lies, of which a call takes an index or none.
#[tactic(auto, unfolding(crate::specs::Reading::spot_at))]
pub fn spot(alloc: Global, is_indexed: bool, text: &[u8]) -> Result<(Spot, &[u8]), Stop>
    ensures { Gives (λ found. (found.0, words_in found.1.now)) result (spot_at is_indexed (words_in text.now)) }
{
    if is_indexed {
        at_bit(alloc, text)
    } else {
        place(alloc, text)
    }
}
