ghost use Rattle.std.specs.Prelude.{◌≡◌, ◌++◌, ℕ, IfOk, List};
ghost use Rattle.pac_base.specs.Widths.{bits_of};
ghost use Rattle.frag_sem.specs.Meaning.{Bound as Binding, argument, chain_written, link_written};
ghost use Rattle.frag_sem.specs.PreludeCalls.{bit_writes};
ghost use Rattle.frag_sem.specs.ProxyTypes.{numbers_on, truths_on, writer_type};
ghost use Rattle.frag_sem.specs.TextMeaning.{bit_put, bits_put, field_written, form_written, text_acts};
ghost use Rattle.frag_eval.specs.Deeds.{all_put, operand_number, put_into};
ghost use Rattle.frag_eval.specs.Lowering.{Knows, finds, maybe_put};

use crate::calls::{bit_write, is_text};
use crate::deed::{Operand, Put, Term};
use crate::names::Names;
use crate::term::{argument, bit_at, operand};
use frag_index::Unit;
use frag_tree::{BitKind, Call, Link, Value, WriteForm, Writer};
use pac_base::NoMemory;
use std::alloc::Global;

/// What a call of a bit's writer writes.
#[tactic(auto, unfolding(crate::specs::Deeds::operand_said))]
fn bit_value(
    kind: BitKind,
    unit: &Unit<'_>,
    writer: &Writer,
    method: &[u8],
    given: Operand,
) -> Operand
    ensures { (words : List ℕ) → operand_number words result ≡ bit_put (bit_writes kind ++ truths_on (writer_type writer.now) unit.now.values) method.now (operand_number words given) }
{
    if is_text(method, b"bit") {
        return given;
    }
    match bit_write(kind, unit, writer, method) {
        Some(value) => Operand {
            negations: 0,
            cast: None,
            term: Term::Truth(value),
        },
        None => given,
    }
}

/// What a call of a field's writer writes.
#[tactic(auto, unfolding(crate::specs::Deeds::operand_said))]
fn bits_value(unit: &Unit<'_>, writer: &Writer, method: &[u8], given: Operand) -> Operand
    ensures { (words : List ℕ) → operand_number words result ≡ bits_put (numbers_on (writer_type writer.now) unit.now.values) method.now (operand_number words given) }
{
    if is_text(method, b"bits") {
        return given;
    }
    match unit.write_number(writer, method) {
        Some(call) => Operand {
            negations: 0,
            cast: None,
            term: Term::Number(call.value),
        },
        None => given,
    }
}

/// What a method of a writer puts into a word.
fn form_put(
    unit: &Unit<'_>,
    writer: &Writer,
    index: Option<u64>,
    method: &[u8],
    given: Operand,
) -> Put
    ensures { (words : List ℕ) (word : ℕ) → put_into (bits_of unit.now.word) words word result ≡ form_written unit.now writer.now index method.now (operand_number words given) word writer.now.form }
{
    match &writer.form {
        WriteForm::Bit { kind, spot } => Put::Part {
            offset: bit_at(spot, index),
            bits: 1,
            value: bit_value(*kind, unit, writer, method, given),
        },
        WriteForm::Field { bits, spot, .. } => Put::Part {
            offset: bit_at(spot, index),
            bits: (*bits).min(64) as u32,
            value: bits_value(unit, writer, method, given),
        },
    }
}

/// What a method of a field puts into a word, where the field can be written.
fn field_put(
    names: &Names<'_, '_, '_, '_>,
    unit: &Unit<'_>,
    field: &Call,
    method: &[u8],
    value: &Option<Value>,
) -> Option<Put>
    ensures { (words : List ℕ) (bindings : List Binding) (word : ℕ) → Knows words (finds names.now) bindings → maybe_put (bits_of unit.now.word) words word result ≡ field_written unit.now field.now.name field.now.index method.now (argument bindings value.now) word }
{
    match unit.writer(field.name.bytes()) {
        Some(writer) => Some(form_put(unit, writer, field.index, method, argument(names, value))),
        None => None,
    }
}

/// What a link of a chain puts into a word, if anything.
fn link_put(names: &Names<'_, '_, '_, '_>, unit: &Unit<'_>, link: &Link) -> Option<Put>
    ensures { (words : List ℕ) (bindings : List Binding) (word : ℕ) → Knows words (finds names.now) bindings → maybe_put (bits_of unit.now.word) words word result ≡ link_written (text_acts unit.now) bindings word link.now }
{
    match link {
        Link::Bits { value } => Some(Put::Whole {
            value: operand(names, value),
        }),
        Link::Field {
            field,
            method,
            value,
        } => field_put(names, unit, field, method.bytes(), value),
    }
}

/// Puts what a link puts, if anything, behind what is put before it.
fn push_put(puts: &mut Vec<Put>, put: Option<Put>) -> Result<(), NoMemory>
    ensures { IfOk result (λ _. (N : ℕ) (words : List ℕ) (word : ℕ) → all_put N words word puts.new.items ≡ maybe_put N words (all_put N words word puts.old.items) put) }
{
    if let Some(put) = put {
        puts.push(put)?;
    }
    Ok(())
}

/// What a chain puts into a word.
pub(crate) fn chain_puts(
    alloc: Global,
    names: &Names<'_, '_, '_, '_>,
    unit: &Unit<'_>,
    chain: &[Link],
) -> Result<Vec<Put>, NoMemory>
    ensures { IfOk result (λ puts. (words : List ℕ) (bindings : List Binding) (word : ℕ) → Knows words (finds names.now) bindings → all_put (bits_of unit.now.word) words word puts.items ≡ chain_written (text_acts unit.now) bindings word chain.now) }
{
    let mut puts = Vec::new(alloc);
    let mut rest = chain;
    while let Some((link, others)) = rest.split_first() {
        push_put(&mut puts, link_put(names, unit, link))?;
        rest = others;
    }
    Ok(puts)
}
