ghost use Rattle.std.specs.Prelude.{◌≡◌};
ghost use Rattle.frag_script.specs.Reading.{Gives, argument_at, chain_at, chain_part_at, field_link_at, filled_link_at, link_at, run_at};
ghost use Rattle.frag_script.specs.Tokens.{tokens_in};

use crate::fault::LineFault;
use crate::field::indexed_field;
use crate::fixed::Fixed;
use crate::part::Part;
use crate::token::{after, expect, identifier, is};
use crate::value::closed_value;
use frag_tree::{Call, Identifier, Link, Value};
use pac_base::Seq;
use std::alloc::Global;

/// `( )`, or `( VALUE )`
#[tactic(auto, unfolding(crate::specs::Reading::argument_at))]
fn argument(alloc: Global, text: &[u8]) -> Result<(Option<Value>, &[u8]), LineFault>
    ensures { Gives (λ found. (found.0, tokens_in found.1.now)) result (argument_at (tokens_in text.now)) }
{
    let inside = expect(text, Fixed::Opener)?;
    if let Some(rest) = after(inside, Fixed::Closer) {
        return Ok((None, rest));
    }
    let (value, rest) = closed_value(alloc, inside)?;
    Ok((Some(value), rest))
}

/// What stands behind `.FIELD()` or `.FIELD(INDEX)`: `.METHOD()`, or `.METHOD(VALUE)`
#[tactic(auto, unfolding(crate::specs::Reading::field_link_at))]
fn field_link(alloc: Global, field: Call, text: &[u8]) -> Result<(Link, &[u8]), LineFault>
    ensures { Gives (λ found. (found.0, tokens_in found.1.now)) result (field_link_at field (tokens_in text.now)) }
{
    let rest = expect(text, Fixed::Dot)?;
    let (method, rest) = identifier(alloc, rest)?;
    let (value, rest) = argument(alloc, rest)?;
    Ok((
        Link::Field {
            field,
            method,
            value,
        },
        rest,
    ))
}

/// What stands behind `.NAME(` where that isn't `)`: a value for `bits`, or the index of a field.
#[tactic(auto, unfolding(crate::specs::Reading::filled_link_at))]
fn filled_link(alloc: Global, name: Identifier, text: &[u8]) -> Result<(Link, &[u8]), LineFault>
    ensures { Gives (λ found. (found.0, tokens_in found.1.now)) result (filled_link_at name (tokens_in text.now)) }
{
    if is(&name, Fixed::Bits) {
        let (value, rest) = closed_value(alloc, text)?;
        return Ok((Link::Bits { value }, rest));
    }
    let (field, rest) = indexed_field(alloc, name, text)?;
    field_link(alloc, field, rest)
}

/// One link of a chain.
#[tactic(auto, unfolding(crate::specs::Reading::link_at))]
fn link(alloc: Global, text: &[u8]) -> Result<(Link, &[u8]), LineFault>
    ensures { Gives (λ found. (found.0, tokens_in found.1.now)) result (link_at (tokens_in text.now)) }
{
    let rest = expect(text, Fixed::Dot)?;
    let (name, rest) = identifier(alloc, rest)?;
    let inside = expect(rest, Fixed::Opener)?;
    match after(inside, Fixed::Closer) {
        Some(rest) => field_link(alloc, Call { name, index: None }, rest),
        None => filled_link(alloc, name, inside),
    }
}

/// One link of a chain, or the `)` that ends it.
#[tactic(auto, unfolding(crate::specs::Reading::chain_part_at))]
fn chain_part(alloc: Global, text: &[u8]) -> Result<(Part<Link, ()>, &[u8]), LineFault>
    ensures { Gives (λ found. (found.0, tokens_in found.1.now)) result (chain_part_at (tokens_in text.now)) }
{
    if let Some(rest) = after(text, Fixed::Closer) {
        return Ok((Part::End(()), rest));
    }
    let (link, rest) = link(alloc, text)?;
    Ok((Part::Item(link), rest))
}

/// The links of a chain, and the `)` that ends it.
fn links(alloc: Global, text: &[u8]) -> Result<(Seq<Link>, &[u8]), LineFault>
    ensures { Gives (λ found. ((found.0, tt), tokens_in found.1.now)) result (run_at chain_part_at (tokens_in text.now)) }
{
    let mut links = Seq::new(alloc);
    let mut rest = text;
    loop {
        let (part, after) = chain_part(alloc, rest)?;
        match part {
            Part::Item(link) => links.push(link)?,
            Part::End(()) => return Ok((links, after)),
        }
        rest = after;
    }
}

/// `w`, the links behind it, and `)`
#[tactic(auto, unfolding(crate::specs::Reading::chain_at))]
pub(crate) fn chain(alloc: Global, text: &[u8]) -> Result<(Seq<Link>, &[u8]), LineFault>
    ensures { Gives (λ found. (found.0, tokens_in found.1.now)) result (chain_at (tokens_in text.now)) }
{
    let rest = expect(text, Fixed::WriterName)?;
    let (links, rest) = links(alloc, rest)?;
    Ok((links, rest))
}
