ghost use Rattle.std.specs.Prelude.{◌≡◌, ◌==◌, ◌&&◌, ◌<◌, ◌+◌, ◌^◌, length};
ghost use Rattle.frag_words.specs.Words.{words_in};
ghost use Rattle.frag_token.specs.Reading.{Gives, is_end};
ghost use Rattle.frag_parse.specs.Survey.{inner_at, step_at, survey_at, surveyed_at};

use crate::opening::opening;
use frag_parts::head::block_head;
use frag_parts::register::register;
use frag_token::fault::Stop;
use frag_token::sign::Sign;
use frag_token::starts::Starts;
use frag_token::token::{expect, is_at, is_end};
use frag_tree::{Phrase, Version};
use std::alloc::Global;

/// How many modules are open behind the head of a block module, or behind a register module, where so
/// many are open before it; and what follows it.
#[tactic(auto, unfolding(crate::specs::Survey::inner_at))]
fn inner(
    alloc: Global,
    version: Version,
    unclosed: usize,
    text: &[u8],
) -> Result<(usize, &[u8]), Stop>
    requires { unclosed + length (words_in text.now) < 2 ^ 64 }
    ensures { Gives (λ found. (found.0, words_in found.1.now)) result (inner_at version unclosed (words_in text.now)) }
{
    let mut starts = Starts::new(alloc, text);
    if is_at(text, 11, Sign::Hash) {
        let (_head, rest) = block_head(alloc, &mut starts, text)?;
        return Ok((unclosed + 1, rest));
    }
    let (_unit, rest) = register(alloc, version, &mut starts, text)?;
    Ok((unclosed, rest))
}

/// How many block modules are open behind the next head, register module or closing brace, where so many
/// are open before it; and what follows it.
#[tactic(auto, unfolding(crate::specs::Survey::step_at))]
fn step(
    alloc: Global,
    version: Version,
    unclosed: usize,
    text: &[u8],
) -> Result<(usize, &[u8]), Stop>
    requires { unclosed + length (words_in text.now) < 2 ^ 64 }
    ensures { Gives (λ found. (found.0, words_in found.1.now)) result (step_at version unclosed (words_in text.now)) }
{
    if unclosed == 0 {
        let mut starts = Starts::new(alloc, text);
        let (_head, rest) = block_head(alloc, &mut starts, text)?;
        return Ok((1, rest));
    }
    if is_at(text, 0, Sign::Pub) {
        return inner(alloc, version, unclosed, text);
    }
    let rest = expect(text, Phrase::Closer)?;
    Ok((unclosed - 1, rest))
}

/// Whether no module is open and no word is left.
fn is_closed(unclosed: usize, text: &[u8]) -> bool
    ensures { result ≡ (unclosed == 0 && is_end (words_in text.now)) }
{
    unclosed == 0 && is_end(text)
}

/// Whether the text, of `total` bytes, is block modules up to its end, however deep they nest. Keeps
/// nothing of them.
fn survey(alloc: Global, version: Version, text: &[u8], total: usize) -> Result<(), Stop>
    requires { length text.now ≡ total }
    ensures { Gives (λ done. done) result (survey_at version (words_in text.now)) }
{
    let mut unclosed: usize = 0;
    let mut rest = text;
    while !is_closed(unclosed, rest) {
        let (next, after) = step(alloc, version, unclosed, rest)?;
        unclosed = next;
        rest = after;
    }
    Ok(())
}

/// Whether the text is a crate, however deep its modules nest.
#[tactic(auto, unfolding(crate::specs::Survey::surveyed_at))]
pub(crate) fn surveyed(alloc: Global, bytes: &[u8]) -> Result<(), Stop>
    ensures { Gives (λ done. done) result (surveyed_at (words_in bytes.now)) }
{
    let mut starts = Starts::new(alloc, bytes);
    let (version, _slots, rest) = opening(alloc, &mut starts, bytes)?;
    survey(alloc, version, rest, rest.len())
}
