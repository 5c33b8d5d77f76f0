ghost use Rattle.std.specs.Prelude.{◌≡◌, codes};
ghost use Rattle.text_scan.specs.Fronts.{stripped_of};
ghost use Rattle.yaml_block.specs.Reading.{Gives};
ghost use Rattle.yaml_block.specs.Scalars.{double_or_plain, is_flow_mark, is_in_flow, is_indicator, is_plain, plain_at, plain_front, plain_rest, scalar_at, stops, text_of};

use crate::quoted::{Quote, quoted_text};
use crate::refusal::Refusal;
use crate::space::{is_parted, starts, trimmed};
use pac_base::{Text, TextFault};
use std::alloc::Global;
use text_scan::stripped;

/// Where a scalar stands.
#[derive(Clone, Copy)]
pub enum Place {
    /// In a line.
    Line,
    /// In a flow collection.
    Flow,
}

fn is_in_flow(place: Place) -> bool
    ensures { result ≡ is_in_flow place }
{
    matches!(place, Place::Flow)
}

/// The bytes as a text.
#[tactic(auto, unfolding(crate::specs::Scalars::text_of))]
pub fn made_text(alloc: Global, bytes: &[u8]) -> Result<Text, Refusal>
    ensures { Gives (λ text. text) result (text_of bytes.now) }
{
    match Text::new(alloc, bytes) {
        Ok(text) => Ok(text),
        Err(TextFault::Memory) => Err(Refusal::Memory),
        Err(TextFault::NotUtf8) => Err(Refusal::NotInForm),
    }
}

fn is_flow_mark(byte: u8) -> bool
    ensures { result ≡ is_flow_mark byte }
{
    byte == b',' || byte == b'[' || byte == b']' || byte == b'{' || byte == b'}'
}

/// The bytes that no plain scalar begins with.
const INDICATORS: &[u8] = b"-?:,[]{}#&*!|>'\"%@`";

fn is_indicator(byte: u8) -> bool
    ensures { result ≡ is_indicator byte }
{
    INDICATORS.iter().any(|mark| byte == *mark)
}

/// Whether a plain scalar ends before the text.
#[tactic(auto, unfolding(crate::specs::Scalars::stops))]
fn stops(place: Place, text: &[u8]) -> bool
    ensures { result ≡ stops place text.now }
{
    match text {
        [] => true,
        [first, after @ ..] => {
            *first == b'\t'
                || (*first == b':' && is_parted(after))
                || (*first == b' ' && starts(after, b'#'))
                || (is_in_flow(place) && is_flow_mark(*first))
        }
    }
}

/// What follows a plain scalar at the front of the text.
#[tactic(auto, unfolding(crate::specs::Scalars::plain_rest))]
fn plain_rest(place: Place, text: &[u8]) -> &[u8]
    ensures { result.now ≡ plain_rest place text.now }
{
    let mut rest = text;
    while let [_, after @ ..] = rest {
        if stops(place, rest) {
            break;
        }
        rest = after;
    }
    rest
}

/// A plain scalar at the front of the text, and what follows it.
fn split_plain(place: Place, text: &[u8]) -> (&[u8], &[u8])
    ensures front { result.0.now ≡ plain_front place text.now }
    ensures rest { result.1.now ≡ plain_rest place text.now }
{
    let rest = plain_rest(place, text);
    text.split_at(text.len() - rest.len())
}

/// Whether the bytes have the form of a plain scalar at both ends.
#[tactic(auto, unfolding(crate::specs::Scalars::is_plain))]
fn is_plain(bytes: &[u8]) -> bool
    ensures { result ≡ is_plain bytes.now }
{
    match bytes {
        [] => false,
        [first, others @ ..] => !is_indicator(*first) && bytes[others.len()] != b':',
    }
}

#[tactic(auto, unfolding(crate::specs::Scalars::plain_at))]
fn plain(alloc: Global, place: Place, text: &[u8]) -> Result<(Text, &[u8]), Refusal>
    ensures { Gives (λ x. (x.0, x.1.now)) result (plain_at place text.now) }
{
    let (front, rest) = split_plain(place, text);
    let bytes = trimmed(front);
    if !is_plain(bytes) {
        return Err(Refusal::NotInForm);
    }
    let spelled = made_text(alloc, bytes)?;
    Ok((spelled, rest))
}

fn double_or_plain(alloc: Global, place: Place, text: &[u8]) -> Result<(Text, &[u8]), Refusal>
    ensures { Gives (λ x. (x.0, x.1.now)) result (double_or_plain (stripped_of (codes "\"") text.now) place text.now) }
{
    match stripped(text, b"\"") {
        Some(inside) => quoted_text(alloc, Quote::Double, inside),
        None => plain(alloc, place, text),
    }
}

/// The scalar at the front of the text, and what follows it.
#[tactic(auto, unfolding(crate::specs::Scalars::scalar_at))]
pub fn scalar_text(alloc: Global, place: Place, text: &[u8]) -> Result<(Text, &[u8]), Refusal>
    ensures { Gives (λ x. (x.0, x.1.now)) result (scalar_at place text.now) }
{
    match stripped(text, b"'") {
        Some(inside) => quoted_text(alloc, Quote::Single, inside),
        None => double_or_plain(alloc, place, text),
    }
}
