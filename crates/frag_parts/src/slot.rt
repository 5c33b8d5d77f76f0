ghost use Rattle.std.specs.Prelude.{◌≡◌};
ghost use Rattle.frag_words.specs.Words.{words_in};
ghost use Rattle.frag_token.specs.Reading.{Gives};
ghost use Rattle.frag_parts.specs.Reading.{slot_at};

use frag_token::fault::Stop;
use frag_token::numeral::hexadecimal;
use frag_token::token::{expect, identifier};
use frag_tree::{Phrase, Slot};
use std::alloc::Global;

/// `pub NAME: Periph<MODULE::RegisterBlock, ADDRESS>,`
#[tactic(auto, unfolding(crate::specs::Reading::slot_at))]
pub(crate) fn slot(alloc: Global, text: &[u8]) -> Result<(Slot, &[u8]), Stop>
    ensures { Gives (λ found. (found.0, words_in found.1.now)) result (slot_at (words_in text.now)) }
{
    let rest = expect(text, Phrase::Pub)?;
    let (name, rest) = identifier(alloc, rest)?;
    let rest = expect(rest, Phrase::OpensPeriph)?;
    let (block, rest) = identifier(alloc, rest)?;
    let rest = expect(rest, Phrase::BlockThenNext)?;
    let (address, rest) = hexadecimal(alloc, rest)?;
    let rest = expect(rest, Phrase::ClosesSlot)?;
    let slot = Slot {
        name,
        block,
        address,
    };
    Ok((slot, rest))
}
