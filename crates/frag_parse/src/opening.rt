ghost use Rattle.std.specs.Prelude.{◌≡◌};
ghost use Rattle.frag_words.specs.Words.{words_in};
ghost use Rattle.frag_token.specs.Reading.{Gives};
ghost use Rattle.frag_parse.specs.Reading.{opening_at, version_at};

use frag_parts::production::Slots;
use frag_token::fault::Stop;
use frag_token::list::{Begins, braced};
use frag_token::sign::Sign;
use frag_token::starts::Starts;
use frag_token::token::{expect, is_at};
use frag_tree::{Phrase, Slot, Version};
use pac_base::Seq;
use std::alloc::Global;

/// The version of the text, and what follows its line, where it has one.
#[tactic(auto, unfolding(crate::specs::Reading::version_at))]
fn version(text: &[u8]) -> Result<(Version, &[u8]), Stop>
    ensures { Gives (λ found. (found.0, words_in found.1.now)) result (version_at (words_in text.now)) }
{
    if is_at(text, 0, Sign::Pub) {
        let rest = expect(text, Phrase::VersionTwo)?;
        return Ok((Version::Two, rest));
    }
    Ok((Version::One, text))
}

/// What stands before the block modules: the version and the slots.
#[tactic(auto, unfolding(crate::specs::Reading::opening_at))]
pub(crate) fn opening<'a>(
    alloc: Global,
    starts: &mut Starts,
    text: &'a [u8],
) -> Result<(Version, Seq<Slot>, &'a [u8]), Stop>
    ensures { Gives (λ found. ((found.0, found.1), words_in found.2.now)) result (opening_at (words_in text.now)) }
{
    let (version, rest) = version(text)?;
    let rest = expect(rest, Phrase::UsePrelude)?;
    let rest = expect(rest, Phrase::OpensPeripherals)?;
    let (slots, rest) = braced(alloc, starts, &Slots, Begins::Pub, rest)?;
    Ok((version, slots, rest))
}
