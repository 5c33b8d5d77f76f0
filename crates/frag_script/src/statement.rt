ghost use Rattle.std.specs.Prelude.{◌≡◌, option_map};
ghost use Rattle.frag_script.specs.Reading.{Gives, bound, let_at, operation_at, operation_of, say_at, say_begun, statement_at, whole_statement, written};
ghost use Rattle.frag_script.specs.Tokens.{tokens_in};

use crate::closure::{Parameters, closure};
use crate::fault::LineFault;
use crate::fixed::Fixed;
use crate::place::{Ending, place};
use crate::token::{after, expect, identifier, is, is_end};
use crate::value::closed_value;
use frag_tree::{Identifier, Link, Place, Statement};
use pac_base::Seq;
use std::alloc::Global;

/// The statement of a register call that takes a closure.
fn written(
    place: Place,
    call: Identifier,
    parameters: Parameters,
    chain: Seq<Link>,
) -> Result<Statement, LineFault>
    ensures { Gives (λ found. found) result (written place call parameters chain) }
{
    match parameters {
        Parameters::Writer => {
            if is(&call, Fixed::Write) {
                return Ok(Statement::Write { place, chain });
            }
            if is(&call, Fixed::WriteWithZero) {
                return Ok(Statement::WriteWithZero { place, chain });
            }
        }
        Parameters::ReaderAndWriter { names_reader } => {
            if is(&call, Fixed::Modify) {
                return Ok(Statement::Modify {
                    place,
                    names_reader,
                    chain,
                });
            }
        }
    }
    Err(LineFault::NotAStatement)
}

/// What a register call makes of its place.
fn operation_on(
    alloc: Global,
    place: Place,
    ending: Ending,
    text: &[u8],
) -> Result<(Statement, &[u8]), LineFault>
    ensures { Gives (λ found. (found.0, tokens_in found.1.now)) result (operation_of place ending (tokens_in text.now)) }
{
    match ending {
        Ending::Plain(call) => {
            if is(&call, Fixed::Reset) {
                Ok((Statement::Reset { place }, text))
            } else {
                Err(LineFault::NotAStatement)
            }
        }
        Ending::Closure(call) => {
            let (parameters, chain, rest) = closure(alloc, text)?;
            let statement = written(place, call, parameters, chain)?;
            Ok((statement, rest))
        }
    }
}

/// A register call other than `read`.
#[tactic(auto, unfolding(crate::specs::Reading::operation_at))]
fn operation(alloc: Global, text: &[u8]) -> Result<(Statement, &[u8]), LineFault>
    ensures { Gives (λ found. (found.0, tokens_in found.1.now)) result (operation_at (tokens_in text.now)) }
{
    let (place, ending, rest) = place(alloc, text)?;
    operation_on(alloc, place, ending, rest)
}

/// The statement that binds what is read.
fn bound(name: Identifier, place: Place, ending: Ending) -> Result<Statement, LineFault>
    ensures { Gives (λ found. found) result (bound name place ending) }
{
    match ending {
        Ending::Plain(call) => {
            if is(&call, Fixed::Read) {
                Ok(Statement::Let { name, place })
            } else {
                Err(LineFault::NotAStatement)
            }
        }
        Ending::Closure(_) => Err(LineFault::NotAStatement),
    }
}

/// What stands behind `let`.
#[tactic(auto, unfolding(crate::specs::Reading::let_at))]
fn binding(alloc: Global, text: &[u8]) -> Result<(Statement, &[u8]), LineFault>
    ensures { Gives (λ found. (found.0, tokens_in found.1.now)) result (let_at (tokens_in text.now)) }
{
    let (name, rest) = identifier(alloc, text)?;
    let rest = expect(rest, Fixed::Equals)?;
    let (place, ending, rest) = place(alloc, rest)?;
    let statement = bound(name, place, ending)?;
    Ok((statement, rest))
}

/// What stands behind `say(`, where the text begins with that.
#[tactic(auto, unfolding(crate::specs::Reading::say_begun))]
fn after_say(text: &[u8]) -> Option<&[u8]>
    ensures { option_map (λ rest. tokens_in rest.now) result ≡ say_begun (tokens_in text.now) }
{
    let rest = after(text, Fixed::Say)?;
    after(rest, Fixed::Opener)
}

/// What stands behind `say(`.
#[tactic(auto, unfolding(crate::specs::Reading::say_at))]
fn saying(alloc: Global, text: &[u8]) -> Result<(Statement, &[u8]), LineFault>
    ensures { Gives (λ found. (found.0, tokens_in found.1.now)) result (say_at (tokens_in text.now)) }
{
    let (value, rest) = closed_value(alloc, text)?;
    let rest = expect(rest, Fixed::Semicolon)?;
    Ok((Statement::Say { value }, rest))
}

/// A statement, and what follows it.
#[tactic(auto, unfolding(crate::specs::Reading::statement_at))]
fn first_statement(alloc: Global, text: &[u8]) -> Result<(Statement, &[u8]), LineFault>
    ensures { Gives (λ found. (found.0, tokens_in found.1.now)) result (statement_at (tokens_in text.now)) }
{
    if let Some(rest) = after(text, Fixed::Let) {
        return binding(alloc, rest);
    }
    if let Some(rest) = after_say(text) {
        return saying(alloc, rest);
    }
    operation(alloc, text)
}

/// The statement that the text spells.
#[tactic(auto, unfolding(crate::specs::Reading::whole_statement))]
pub(crate) fn statement(alloc: Global, text: &[u8]) -> Result<Statement, LineFault>
    ensures { Gives (λ found. found) result (whole_statement (tokens_in text.now)) }
{
    let (statement, rest) = first_statement(alloc, text)?;
    if !is_end(rest) {
        return Err(LineFault::NotAStatement);
    }
    Ok(statement)
}
