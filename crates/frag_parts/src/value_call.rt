ghost use Rattle.std.specs.Prelude.{◌≡◌};
ghost use Rattle.frag_words.specs.Words.{words_in};
ghost use Rattle.frag_token.specs.Reading.{Gives};
ghost use Rattle.frag_parts.specs.Reading.{number_behind_at, number_call_at, truth_behind_at, truth_call_at};

use frag_token::fault::Stop;
use frag_token::numeral::hexadecimal;
use frag_token::token::{expect, identifier};
use frag_token::word::truth;
use frag_tree::{NumberCall, Phrase, TruthCall};
use std::alloc::Global;

/// A call that stands for a truth, of which the texts around the truth are these.
#[tactic(auto, unfolding(crate::specs::Reading::truth_behind_at))]
fn truth_behind(
    alloc: Global,
    middle: Phrase,
    end: Phrase,
    text: &[u8],
) -> Result<(TruthCall, &[u8]), Stop>
    ensures { Gives (λ found. (found.0, words_in found.1.now)) result (truth_behind_at middle end (words_in text.now)) }
{
    let rest = expect(text, Phrase::PubFn)?;
    let (name, rest) = identifier(alloc, rest)?;
    let rest = expect(rest, middle)?;
    let (value, rest) = truth(rest)?;
    let rest = expect(rest, end)?;
    Ok((TruthCall { name, value }, rest))
}

/// A call that tests a bit, or one that writes it.
#[tactic(auto, unfolding(crate::specs::Reading::truth_call_at))]
pub(crate) fn truth_call(
    alloc: Global,
    reads: bool,
    text: &[u8],
) -> Result<(TruthCall, &[u8]), Stop>
    ensures { Gives (λ found. (found.0, words_in found.1.now)) result (truth_call_at reads (words_in text.now)) }
{
    if reads {
        truth_behind(alloc, Phrase::TestsBit, Phrase::ClosesBody, text)
    } else {
        truth_behind(alloc, Phrase::WritesBit, Phrase::ClosesCall, text)
    }
}

/// A call that stands for a number, of which the texts around the number are these.
#[tactic(auto, unfolding(crate::specs::Reading::number_behind_at))]
fn number_behind(
    alloc: Global,
    middle: Phrase,
    end: Phrase,
    text: &[u8],
) -> Result<(NumberCall, &[u8]), Stop>
    ensures { Gives (λ found. (found.0, words_in found.1.now)) result (number_behind_at middle end (words_in text.now)) }
{
    let rest = expect(text, Phrase::PubFn)?;
    let (name, rest) = identifier(alloc, rest)?;
    let rest = expect(rest, middle)?;
    let (value, rest) = hexadecimal(alloc, rest)?;
    let rest = expect(rest, end)?;
    Ok((NumberCall { name, value }, rest))
}

/// A call that tests a number, or one that writes it.
#[tactic(auto, unfolding(crate::specs::Reading::number_call_at))]
pub(crate) fn number_call(
    alloc: Global,
    reads: bool,
    text: &[u8],
) -> Result<(NumberCall, &[u8]), Stop>
    ensures { Gives (λ found. (found.0, words_in found.1.now)) result (number_call_at reads (words_in text.now)) }
{
    if reads {
        number_behind(alloc, Phrase::TestsNumber, Phrase::ClosesBody, text)
    } else {
        number_behind(alloc, Phrase::WritesNumber, Phrase::ClosesCall, text)
    }
}
