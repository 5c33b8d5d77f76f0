ghost use Rattle.std.specs.Prelude.{◌≡◌};
ghost use Rattle.frag_script.specs.Reading.{Gives, both_at, closure_at, parameters_at};
ghost use Rattle.frag_script.specs.Tokens.{tokens_in};

use crate::chain::chain;
use crate::fault::LineFault;
use crate::fixed::Fixed;
use crate::token::{after, expect};
use frag_tree::Link;
use pac_base::Seq;
use std::alloc::Global;

/// The parameters of a closure.
#[derive(Clone, Copy)]
pub(crate) enum Parameters {
    /// `|w|`
    Writer,
    /// `|r, w|`, or `|_, w|`
    ReaderAndWriter {
        /// Whether the reader has the name `r`.
        names_reader: bool,
    },
}

/// What stands behind the name of the reader.
#[tactic(auto, unfolding(crate::specs::Reading::both_at))]
fn both(names_reader: bool, text: &[u8]) -> Result<(Parameters, &[u8]), LineFault>
    ensures { Gives (λ found. (found.0, tokens_in found.1.now)) result (both_at names_reader (tokens_in text.now)) }
{
    let rest = expect(text, Fixed::Comma)?;
    let rest = expect(rest, Fixed::WriterName)?;
    Ok((Parameters::ReaderAndWriter { names_reader }, rest))
}

/// The parameters of a closure.
#[tactic(auto, unfolding(crate::specs::Reading::parameters_at))]
fn closure_parameters(text: &[u8]) -> Result<(Parameters, &[u8]), LineFault>
    ensures { Gives (λ found. (found.0, tokens_in found.1.now)) result (parameters_at (tokens_in text.now)) }
{
    if let Some(rest) = after(text, Fixed::WriterName) {
        return Ok((Parameters::Writer, rest));
    }
    if let Some(rest) = after(text, Fixed::ReaderName) {
        return both(true, rest);
    }
    let rest = expect(text, Fixed::NoName)?;
    both(false, rest)
}

/// `PARAMETERS | CHAIN ) ;`
#[tactic(auto, unfolding(crate::specs::Reading::closure_at))]
pub(crate) fn closure(
    alloc: Global,
    text: &[u8],
) -> Result<(Parameters, Seq<Link>, &[u8]), LineFault>
    ensures { Gives (λ found. ((found.0, found.1), tokens_in found.2.now)) result (closure_at (tokens_in text.now)) }
{
    let (parameters, rest) = closure_parameters(text)?;
    let rest = expect(rest, Fixed::Bar)?;
    let (chain, rest) = chain(alloc, rest)?;
    let rest = expect(rest, Fixed::Semicolon)?;
    Ok((parameters, chain, rest))
}
