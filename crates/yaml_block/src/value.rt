ghost use Rattle.std.specs.Prelude.{◌≡◌, codes};
ghost use Rattle.text_scan.specs.Fronts.{stripped_of};
ghost use Rattle.yaml_block.specs.Reading.{Gives};
ghost use Rattle.yaml_block.specs.Values.{mapping_or_scalar, value_at};

use crate::flow::{mapping, sequence};
use crate::refusal::Refusal;
use crate::scalar::{Place, scalar_text};
use pac_base::{Seq, Text};
use std::alloc::Global;
use text_scan::stripped;

/// A value that stands on one line.
#[derive(Debug, Drop)]
pub enum Value {
    /// A scalar.
    Scalar(Text),
    /// A flow list of scalars, `[a, b]`.
    Sequence(Seq<Text>),
    /// A flow mapping of scalars, `{a: b, c: d}`: keys and values in order.
    Mapping(Seq<(Text, Text)>),
}

fn mapping_or_scalar(alloc: Global, text: &[u8]) -> Result<(Value, &[u8]), Refusal>
    ensures { Gives (λ x. (x.0, x.1.now)) result (mapping_or_scalar (stripped_of (codes "{") text.now) text.now) }
{
    match stripped(text, b"{") {
        Some(inside) => {
            let (pairs, rest) = mapping(alloc, inside)?;
            Ok((Value::Mapping(pairs), rest))
        }
        None => {
            let (scalar, rest) = scalar_text(alloc, Place::Line, text)?;
            Ok((Value::Scalar(scalar), rest))
        }
    }
}

/// The value at the front of the text, and what follows it.
#[tactic(auto, unfolding(crate::specs::Values::value_at))]
pub fn value_of(alloc: Global, text: &[u8]) -> Result<(Value, &[u8]), Refusal>
    ensures { Gives (λ x. (x.0, x.1.now)) result (value_at text.now) }
{
    match stripped(text, b"[") {
        Some(inside) => {
            let (texts, rest) = sequence(alloc, inside)?;
            Ok((Value::Sequence(texts), rest))
        }
        None => mapping_or_scalar(alloc, text),
    }
}
