ghost use Rattle.std.specs.Prelude.{◌≡◌, ◌∷◌, []};
ghost use Rattle.yaml_block.specs.Reading.{Gives, with_front};
ghost use Rattle.yaml_block.specs.Values.{mapping_at, more_pairs_at, more_texts_at, next_pair_at, next_text_at, pair_at, pairs_at, sequence_at, text_at, texts_at};

use crate::refusal::Refusal;
use crate::scalar::{Place, scalar_text};
use crate::space::{after_spaces, starts};
use pac_base::{Seq, Text};
use std::alloc::Global;
use text_scan::stripped;

/// A key and its value in a flow mapping.
type Pair = (Text, Text);

#[tactic(auto, unfolding(crate::specs::Values::text_at))]
fn text_in_flow(alloc: Global, text: &[u8]) -> Result<(Text, &[u8]), Refusal>
    ensures { Gives (λ x. (x.0, x.1.now)) result (text_at text.now) }
{
    let (scalar, rest) = scalar_text(alloc, Place::Flow, text)?;
    Ok((scalar, after_spaces(rest)))
}

#[tactic(auto, unfolding(crate::specs::Values::next_text_at))]
fn next_text(alloc: Global, text: &[u8]) -> Result<(Text, &[u8]), Refusal>
    ensures { Gives (λ x. (x.0, x.1.now)) result (next_text_at text.now) }
{
    let rest = stripped(text, b",").ok_or(Refusal::NotInForm)?;
    text_in_flow(alloc, after_spaces(rest))
}

/// The scalars behind the first, put behind it, and what follows them.
fn more_texts(alloc: Global, first: Text, text: &[u8]) -> Result<(Seq<Text>, &[u8]), Refusal>
    ensures { Gives (λ x. (x.0, x.1.now)) result (with_front (first ∷ []) (more_texts_at text.now)) }
{
    let mut texts = Seq::new(alloc);
    texts.push(first)?;
    let mut rest = text;
    'texts: while starts(rest, b',') {
        let (next, after) = next_text(alloc, rest)?;
        texts.push(next)?;
        rest = after;
    }
    Ok((texts, rest))
}

#[tactic(auto, unfolding(crate::specs::Values::texts_at))]
fn texts(alloc: Global, text: &[u8]) -> Result<(Seq<Text>, &[u8]), Refusal>
    ensures { Gives (λ x. (x.0, x.1.now)) result (texts_at text.now) }
{
    let (first, rest) = text_in_flow(alloc, text)?;
    let (texts, rest) = more_texts(alloc, first, rest)?;
    let rest = stripped(rest, b"]").ok_or(Refusal::NotInForm)?;
    Ok((texts, rest))
}

/// The flow list whose bracket stood before the text, and what follows it.
#[tactic(auto, unfolding(crate::specs::Values::sequence_at))]
pub fn sequence(alloc: Global, text: &[u8]) -> Result<(Seq<Text>, &[u8]), Refusal>
    ensures { Gives (λ x. (x.0, x.1.now)) result (sequence_at text.now) }
{
    let inside = after_spaces(text);
    match stripped(inside, b"]") {
        Some(rest) => Ok((Seq::new(alloc), rest)),
        None => texts(alloc, inside),
    }
}

#[tactic(auto, unfolding(crate::specs::Values::pair_at))]
fn pair(alloc: Global, text: &[u8]) -> Result<(Pair, &[u8]), Refusal>
    ensures { Gives (λ x. (x.0, x.1.now)) result (pair_at text.now) }
{
    let (key, rest) = text_in_flow(alloc, text)?;
    let rest = stripped(rest, b": ").ok_or(Refusal::NotInForm)?;
    let (value, rest) = text_in_flow(alloc, after_spaces(rest))?;
    Ok(((key, value), rest))
}

#[tactic(auto, unfolding(crate::specs::Values::next_pair_at))]
fn next_pair(alloc: Global, text: &[u8]) -> Result<(Pair, &[u8]), Refusal>
    ensures { Gives (λ x. (x.0, x.1.now)) result (next_pair_at text.now) }
{
    let rest = stripped(text, b",").ok_or(Refusal::NotInForm)?;
    pair(alloc, after_spaces(rest))
}

/// The pairs behind the first, put behind it, and what follows them.
fn more_pairs(alloc: Global, first: Pair, text: &[u8]) -> Result<(Seq<Pair>, &[u8]), Refusal>
    ensures { Gives (λ x. (x.0, x.1.now)) result (with_front (first ∷ []) (more_pairs_at text.now)) }
{
    let mut pairs = Seq::new(alloc);
    pairs.push(first)?;
    let mut rest = text;
    'pairs: while starts(rest, b',') {
        let (next, after) = next_pair(alloc, rest)?;
        pairs.push(next)?;
        rest = after;
    }
    Ok((pairs, rest))
}

#[tactic(auto, unfolding(crate::specs::Values::pairs_at))]
fn pairs(alloc: Global, text: &[u8]) -> Result<(Seq<Pair>, &[u8]), Refusal>
    ensures { Gives (λ x. (x.0, x.1.now)) result (pairs_at text.now) }
{
    let (first, rest) = pair(alloc, text)?;
    let (pairs, rest) = more_pairs(alloc, first, rest)?;
    let rest = stripped(rest, b"}").ok_or(Refusal::NotInForm)?;
    Ok((pairs, rest))
}

/// The flow mapping whose brace stood before the text, and what follows it.
#[tactic(auto, unfolding(crate::specs::Values::mapping_at))]
pub fn mapping(alloc: Global, text: &[u8]) -> Result<(Seq<Pair>, &[u8]), Refusal>
    ensures { Gives (λ x. (x.0, x.1.now)) result (mapping_at text.now) }
{
    let inside = after_spaces(text);
    match stripped(inside, b"}") {
        Some(rest) => Ok((Seq::new(alloc), rest)),
        None => pairs(alloc, inside),
    }
}
