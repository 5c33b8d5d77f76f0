ghost use Rattle.std.specs.Prelude.{◌≡◌, IfOk, map};
ghost use Rattle.std.specs.List.{list_any};
ghost use Rattle.frag_sem.specs.ProxyTypes.{number_calls, reader_type, truth_calls, values_type, writer_type};
ghost use Rattle.frag_rules.specs.Keys.{HasAlso, HasTypes, key_of, key_seen, same_key, types_seen};

use crate::register::{readers_of, writers_of};
use frag_tree::{
    NumberCall, ReadForm, Reader, RegisterModule, TruthCall, Values, WriteForm, Writer, kind_word,
};
use indexmap::IndexSet;
use pac_base::NoMemory;
use std::alloc::Global;

/// The type of a reader or a writer of a field, on which the calls of values stand, by the words that are written
/// for it: its marker, the bits of its number, its writer and the bits of its field.
#[derive(Clone, Copy, PartialEq, Eq, Hash)]
pub enum TypeKey<'a> {
    BitReader(&'a [u8]),
    FieldReader(&'a [u8], u32),
    BitWriter(&'a [u8], &'a [u8]),
    FieldWriter(&'a [u8], u32, u64),
}

/// A call of a value, with the type on which it stands.
#[derive(Clone, Copy, PartialEq, Eq, Hash)]
pub struct CallKey<'a> {
    pub on: TypeKey<'a>,
    pub name: &'a [u8],
}

/// The type of a reader.
pub fn key_of_reader<'a>(reader: &'a Reader) -> TypeKey<'a>
    ensures { key_seen result ≡ key_of (reader_type reader.now) }
{
    match &reader.form {
        ReadForm::Bit { .. } => TypeKey::BitReader(reader.marker.bytes()),
        ReadForm::Field { width, .. } => {
            TypeKey::FieldReader(reader.marker.bytes(), width.bits())
        }
    }
}

/// The type of a writer.
pub fn key_of_writer<'a>(writer: &'a Writer) -> TypeKey<'a>
    ensures { key_seen result ≡ key_of (writer_type writer.now) }
{
    match &writer.form {
        WriteForm::Bit { kind, .. } => TypeKey::BitWriter(kind_word(*kind), writer.marker.bytes()),
        WriteForm::Field { width, bits, .. } => {
            TypeKey::FieldWriter(writer.marker.bytes(), width.bits(), *bits)
        }
    }
}

/// The type on which a block of values stands.
pub fn key_of_values<'a>(block: &'a Values) -> TypeKey<'a>
    ensures { key_seen result ≡ key_of (values_type block.now) }
{
    match block {
        Values::BitReading { marker, .. } => TypeKey::BitReader(marker.bytes()),
        Values::FieldReading { marker, width, .. } => {
            TypeKey::FieldReader(marker.bytes(), width.bits())
        }
        Values::BitWriting { kind, marker, .. } => {
            TypeKey::BitWriter(kind_word(*kind), marker.bytes())
        }
        Values::FieldWriting {
            marker,
            width,
            bits,
            ..
        } => TypeKey::FieldWriter(marker.bytes(), width.bits(), *bits),
    }
}

/// The calls of a block that stand for truths.
pub fn truths_of(block: &Values) -> &[TruthCall]
    ensures { result.now ≡ truth_calls block.now }
{
    match block {
        Values::BitReading { calls, .. } => calls.as_slice(),
        Values::FieldReading { .. } => &[],
        Values::BitWriting { calls, .. } => calls.as_slice(),
        Values::FieldWriting { .. } => &[],
    }
}

/// The calls of a block that stand for numbers.
pub fn numbers_of(block: &Values) -> &[NumberCall]
    ensures { result.now ≡ number_calls block.now }
{
    match block {
        Values::BitReading { .. } => &[],
        Values::FieldReading { calls, .. } => calls.as_slice(),
        Values::BitWriting { .. } => &[],
        Values::FieldWriting { calls, .. } => calls.as_slice(),
    }
}

// ---- the types of a register

fn add_readers<'a>(types: &mut IndexSet<TypeKey<'a>>, readers: &'a [Reader]) -> Result<(), NoMemory>
    ensures { IfOk result (λ _. HasAlso (types_seen types.old) (map (λ reader. key_of (reader_type reader)) readers.now) (types_seen types.new)) }
{
    let mut rest = readers;
    while let Some((first, others)) = rest.split_first() {
        types.insert(key_of_reader(first))?;
        rest = others;
    }
    Ok(())
}

fn add_writers<'a>(types: &mut IndexSet<TypeKey<'a>>, writers: &'a [Writer]) -> Result<(), NoMemory>
    ensures { IfOk result (λ _. HasAlso (types_seen types.old) (map (λ writer. key_of (writer_type writer)) writers.now) (types_seen types.new)) }
{
    let mut rest = writers;
    while let Some((first, others)) = rest.split_first() {
        types.insert(key_of_writer(first))?;
        rest = others;
    }
    Ok(())
}

/// The types of the readers and writers of a register.
pub(crate) fn types_in<'a>(
    alloc: Global,
    unit: &'a RegisterModule,
) -> Result<IndexSet<TypeKey<'a>>, NoMemory>
    ensures { IfOk result (λ types. HasTypes (types_seen types) unit.now) }
{
    let mut types = IndexSet::new(alloc);
    add_readers(&mut types, readers_of(unit))?;
    add_writers(&mut types, writers_of(unit))?;
    Ok(types)
}

/// Whether a block of values stands on one of these types.
pub(crate) fn is_typed(types: &IndexSet<TypeKey<'_>>, block: &Values) -> bool
    ensures { result ≡ list_any (same_key (key_of (values_type block.now))) (types_seen types.now) }
{
    let key = key_of_values(block);
    types.contains(&key)
}
