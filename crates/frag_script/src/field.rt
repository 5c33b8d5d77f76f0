ghost use Rattle.std.specs.Prelude.{◌≡◌};
ghost use Rattle.frag_script.specs.Reading.{Gives, field_at, index_at, indexed_field_at};
ghost use Rattle.frag_script.specs.Tokens.{tokens_in};

use crate::fault::LineFault;
use crate::fixed::Fixed;
use crate::token::{after, expect, identifier, is, number};
use frag_tree::{Call, Identifier};
use std::alloc::Global;

/// `NUMBER )`
#[tactic(auto, unfolding(crate::specs::Reading::index_at))]
pub(crate) fn index(alloc: Global, text: &[u8]) -> Result<(u64, &[u8]), LineFault>
    ensures { Gives (λ found. (found.0, tokens_in found.1.now)) result (index_at (tokens_in text.now)) }
{
    let Some((index, rest)) = number(alloc, text)? else {
        return Err(LineFault::NotAStatement);
    };
    let rest = expect(rest, Fixed::Closer)?;
    Ok((index, rest))
}

/// What stands behind `FIELD(` where that isn't `)`: an index. `bits` of a word is no field with one.
#[tactic(auto, unfolding(crate::specs::Reading::indexed_field_at))]
pub(crate) fn indexed_field(
    alloc: Global,
    name: Identifier,
    text: &[u8],
) -> Result<(Call, &[u8]), LineFault>
    ensures { Gives (λ found. (found.0, tokens_in found.1.now)) result (indexed_field_at name (tokens_in text.now)) }
{
    if is(&name, Fixed::Bits) {
        return Err(LineFault::NotAStatement);
    }
    let (index, rest) = index(alloc, text)?;
    Ok((
        Call {
            name,
            index: Some(index),
        },
        rest,
    ))
}

/// `FIELD()`, or `FIELD(INDEX)`
#[tactic(auto, unfolding(crate::specs::Reading::field_at))]
pub(crate) fn field(alloc: Global, text: &[u8]) -> Result<(Call, &[u8]), LineFault>
    ensures { Gives (λ found. (found.0, tokens_in found.1.now)) result (field_at (tokens_in text.now)) }
{
    let (name, rest) = identifier(alloc, text)?;
    let inside = expect(rest, Fixed::Opener)?;
    match after(inside, Fixed::Closer) {
        Some(rest) => Ok((Call { name, index: None }, rest)),
        None => indexed_field(alloc, name, inside),
    }
}
