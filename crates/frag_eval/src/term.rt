ghost use Rattle.std.specs.Prelude.{◌≡◌, ◌<◌, ◌^◌, ℕ, List, min};
ghost use Rattle.frag_sem.specs.Meaning.{Bound as Binding, argument, atom_value, source_value, value_of};
ghost use Rattle.frag_sem.specs.Spots.{spot_at};
ghost use Rattle.frag_sem.specs.TextMeaning.{bit_given, bits_given, field_given, form_given};
ghost use Rattle.frag_sem.specs.ProxyTypes.{numbers_on, reader_type, truths_on};
ghost use Rattle.frag_sem.specs.PreludeWords.{as_bits, is_set};
ghost use Rattle.pac_base.specs.Widths.{bits_of};
ghost use Rattle.frag_eval.specs.Deeds.{operand_number, operand_said, part_of, term_said, word_at};
ghost use Rattle.frag_eval.specs.Lowering.{Knows, finds};

use crate::calls::{bit_test, is_text};
use crate::deed::{Operand, Part, Term};
use crate::names::{Names, Reading};
use frag_index::Unit;
use frag_tree::{Atom, Call, ReadForm, Reader, Source, Spot, Value};
use pac_base::Width;

/// The lowest bit of the member of an index, 64 at most.
pub(crate) fn bit_at(spot: &Spot, index: Option<u64>) -> u32
    ensures { result ≡ min (spot_at spot.now index) 64 }
{
    match spot {
        Spot::Fixed(place) => (*place).min(64) as u32,
        Spot::Indexed { offset, step, .. } => u128::from(*offset)
            .saturating_add(u128::from(index.unwrap_or(0)).saturating_mul(u128::from(*step)))
            .min(64) as u32,
    }
}

/// What a call of a bit's reader gives.
fn bit_term(part: Part, unit: &Unit<'_>, reader: &Reader, method: &[u8]) -> Term
    ensures { (words : List ℕ) → term_said words result ≡ bit_given (truths_on (reader_type reader.now) unit.now.values) method.now (is_set (part_of words part)) }
{
    if is_text(method, b"bit") {
        return Term::Bit { part, value: true };
    }
    match bit_test(unit, reader, method) {
        Some(value) => Term::Bit { part, value },
        None => Term::Number(0),
    }
}

/// What a call of a field's reader gives.
fn bits_term(part: Part, width: Width, unit: &Unit<'_>, reader: &Reader, method: &[u8]) -> Term
    ensures { (words : List ℕ) → term_said words result ≡ bits_given (numbers_on (reader_type reader.now) unit.now.values) method.now (as_bits (bits_of width) (part_of words part)) }
{
    if is_text(method, b"bits") {
        return Term::Bits { part, width };
    }
    match unit.read_number(reader, method) {
        Some(call) => Term::Test {
            part,
            width,
            value: call.value,
        },
        None => Term::Number(0),
    }
}

/// What a method of a reader gives of a word that was read.
fn form_term(reading: Reading<'_, '_>, reader: &Reader, index: Option<u64>, method: &[u8]) -> Term
    ensures { (words : List ℕ) → word_at words reading.entry.read < 2 ^ 64 → term_said words result ≡ form_given reading.entry.unit.now reader.now index method.now (word_at words reading.entry.read) reader.now.form }
{
    match &reader.form {
        ReadForm::Bit { spot, mask } => {
            let part = Part {
                read: reading.read,
                offset: bit_at(spot, index),
                mask: *mask,
            };
            bit_term(part, reading.unit, reader, method)
        }
        ReadForm::Field { width, spot, mask } => {
            let part = Part {
                read: reading.read,
                offset: bit_at(spot, index),
                mask: *mask,
            };
            bits_term(part, *width, reading.unit, reader, method)
        }
    }
}

/// What a method of a field gives of a word that was read.
#[tactic(auto, unfolding(frag_sem::specs::TextMeaning::field_given))]
fn field_term(reading: Reading<'_, '_>, field: &Call, method: &[u8]) -> Term
    ensures { (words : List ℕ) → word_at words reading.entry.read < 2 ^ 64 → term_said words result ≡ field_given reading.entry.unit.now field.now.name field.now.index method.now (word_at words reading.entry.read) }
{
    match reading.unit.reader(field.name.bytes()) {
        Some(reader) => form_term(reading, reader, field.index, method),
        None => Term::Number(0),
    }
}

/// What a source gives.
fn source_term(names: &Names<'_, '_, '_, '_>, source: &Source) -> Term
    ensures { (words : List ℕ) (bindings : List Binding) → Knows words (finds names.now) bindings → term_said words result ≡ source_value bindings source.now }
{
    match source {
        Source::Bits { reader } => match names.get(reader.bytes()) {
            Some(reading) => Term::Word { read: reading.read },
            None => Term::Number(0),
        },
        Source::Field {
            reader,
            field,
            method,
        } => match names.get(reader.bytes()) {
            Some(reading) => field_term(reading, field, method.bytes()),
            None => Term::Number(0),
        },
    }
}

/// A value in plain numbers.
#[tactic(auto, unfolding(crate::specs::Deeds::operand_said, frag_sem::specs::Meaning::value_of))]
pub(crate) fn operand(names: &Names<'_, '_, '_, '_>, value: &Value) -> Operand
    ensures { (words : List ℕ) (bindings : List Binding) → Knows words (finds names.now) bindings → operand_said words result ≡ value_of bindings value.now }
{
    let negations = value.negations;
    match &value.atom {
        Atom::Number(number) => Operand {
            negations,
            cast: None,
            term: Term::Number(*number),
        },
        Atom::Truth(truth) => Operand {
            negations,
            cast: None,
            term: Term::Truth(*truth),
        },
        Atom::Source(source) => Operand {
            negations,
            cast: None,
            term: source_term(names, source),
        },
        Atom::Cast { source, width } => Operand {
            negations,
            cast: Some(*width),
            term: source_term(names, source),
        },
    }
}

/// What stands in the brackets of a call, in plain numbers; 0 where nothing does.
#[tactic(auto, unfolding(crate::specs::Deeds::operand_said))]
pub(crate) fn argument(names: &Names<'_, '_, '_, '_>, value: &Option<Value>) -> Operand
    ensures { (words : List ℕ) (bindings : List Binding) → Knows words (finds names.now) bindings → operand_number words result ≡ argument bindings value.now }
{
    match value {
        Some(value) => operand(names, value),
        None => Operand {
            negations: 0,
            cast: None,
            term: Term::Number(0),
        },
    }
}
