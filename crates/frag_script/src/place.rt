ghost use Rattle.std.specs.Prelude.{◌≡◌};
ghost use Rattle.frag_script.specs.Reading.{Gives, call_at, opened_call, place_at, run_at, expects};
ghost use Rattle.frag_script.specs.declared.fixed.Fixed.TheVariants.{Closer};
ghost use Rattle.frag_script.specs.Tokens.{tokens_in};

use crate::fault::LineFault;
use crate::field::index;
use crate::fixed::Fixed;
use crate::part::Part;
use crate::token::{after, expect, identifier};
use frag_tree::{Call, Identifier, Place};
use pac_base::Seq;
use std::alloc::Global;

/// The call that ends a place.
#[derive(Drop)]
pub(crate) enum Ending {
    /// `.NAME();`
    Plain(Identifier),
    /// `.NAME(|`
    Closure(Identifier),
}

/// What stands behind `.NAME(` where that isn't `|`.
fn opened_call(
    alloc: Global,
    name: Identifier,
    text: &[u8],
) -> Result<(Part<Call, Ending>, &[u8]), LineFault>
    ensures { Gives (λ found. (found.0, tokens_in found.1.now)) result (opened_call name (expects Closer (tokens_in text.now)) (tokens_in text.now)) }
{
    let Some(rest) = after(text, Fixed::Closer) else {
        let (index, rest) = index(alloc, text)?;
        return Ok((
            Part::Item(Call {
                name,
                index: Some(index),
            }),
            rest,
        ));
    };
    match after(rest, Fixed::Semicolon) {
        Some(end) => Ok((Part::End(Ending::Plain(name)), end)),
        None => Ok((Part::Item(Call { name, index: None }), rest)),
    }
}

/// One call behind a slot: an accessor, or the call that ends the place.
#[tactic(auto, unfolding(crate::specs::Reading::call_at))]
fn call(alloc: Global, text: &[u8]) -> Result<(Part<Call, Ending>, &[u8]), LineFault>
    ensures { Gives (λ found. (found.0, tokens_in found.1.now)) result (call_at (tokens_in text.now)) }
{
    let rest = expect(text, Fixed::Dot)?;
    let (name, rest) = identifier(alloc, rest)?;
    let inside = expect(rest, Fixed::Opener)?;
    match after(inside, Fixed::Bar) {
        Some(rest) => Ok((Part::End(Ending::Closure(name)), rest)),
        None => opened_call(alloc, name, inside),
    }
}

/// The calls behind a slot, up to the one that ends the place.
fn calls(alloc: Global, text: &[u8]) -> Result<(Seq<Call>, Ending, &[u8]), LineFault>
    ensures { Gives (λ found. ((found.0, found.1), tokens_in found.2.now)) result (run_at call_at (tokens_in text.now)) }
{
    let mut steps = Seq::new(alloc);
    let mut rest = text;
    loop {
        let (part, after) = call(alloc, rest)?;
        match part {
            Part::Item(step) => steps.push(step)?,
            Part::End(ending) => return Ok((steps, ending, after)),
        }
        rest = after;
    }
}

/// A place, and the call that ends it.
#[tactic(auto, unfolding(crate::specs::Reading::place_at))]
pub(crate) fn place(alloc: Global, text: &[u8]) -> Result<(Place, Ending, &[u8]), LineFault>
    ensures { Gives (λ found. ((found.0, found.1), tokens_in found.2.now)) result (place_at (tokens_in text.now)) }
{
    let (slot, rest) = identifier(alloc, text)?;
    let (steps, ending, rest) = calls(alloc, rest)?;
    if steps.len() == 0 {
        return Err(LineFault::NotAStatement);
    }
    Ok((Place { slot, steps }, ending, rest))
}
