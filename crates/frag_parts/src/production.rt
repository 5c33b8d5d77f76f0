ghost use Rattle.std.specs.Prelude.{◌≡◌};
ghost use Rattle.frag_words.specs.Words.{words_in};
ghost use Rattle.frag_tree.specs.Productions.{access_reading, field_reading, slot_reading};
ghost use Rattle.frag_tree.specs.RegisterProductions.{marker_reading, reader_reading, values_reading, writer_reading};
ghost use Rattle.frag_parts.specs.Reading.{number_calls, truth_calls};
ghost use Rattle.frag_parts.specs.Shrinking.{access_shrinks, field_shrinks, marker_shrinks, number_calls_shrink, reader_shrinks, slot_shrinks, truth_calls_shrink, values_shrinks, writer_shrinks};

use crate::access::access;
use crate::block::field;
use crate::constant::marker;
use crate::reader::reader;
use crate::slot::slot;
use crate::value_call::{number_call, truth_call};
use crate::values::values;
use crate::writer::writer;
use frag_token::fault::Stop;
use frag_token::list::Production;
use frag_token::starts::Starts;
use frag_tree::{
    Access, Identifier, NumberCall, Reader, Slot, StructField, TruthCall, Values, Version, Writer,
};
use std::alloc::Global;

/// The slots of a crate.
#[derive(Clone, Copy)]
pub struct Slots;

/// The fields of a struct.
#[derive(Clone, Copy)]
pub(crate) struct Fields;

/// The accessors of a block.
#[derive(Clone, Copy)]
pub(crate) struct Accessors;

/// The markers of a register module.
#[derive(Clone, Copy)]
pub(crate) struct Markers;

/// The calls that read fields.
#[derive(Clone, Copy)]
pub(crate) struct Readers {
    /// The form of the text.
    pub(crate) version: Version,
}

/// The calls that write fields.
#[derive(Clone, Copy)]
pub(crate) struct Writers {
    /// The form of the text.
    pub(crate) version: Version,
}

/// The calls that test a bit, or those that write one.
#[derive(Clone, Copy)]
pub(crate) struct TruthCalls {
    /// Whether they test.
    pub(crate) reads: bool,
}

/// The calls that test a number, or those that write one.
#[derive(Clone, Copy)]
pub(crate) struct NumberCalls {
    /// Whether they test.
    pub(crate) reads: bool,
}

/// The blocks of calls that stand for values.
#[derive(Clone, Copy)]
pub(crate) struct ValueBlocks;

impl Production<Slot> for Slots {
    ghost reading = { λ _. slot_reading };

    ghost shrinks = { λ _. slot_shrinks };

    fn read<'a>(
        &self,
        alloc: Global,
        _starts: &mut Starts,
        text: &'a [u8],
    ) -> Result<(Slot, &'a [u8]), Stop> {
        slot(alloc, text)
    }
}

impl Production<StructField> for Fields {
    ghost reading = { λ _. field_reading };

    ghost shrinks = { λ _. field_shrinks };

    fn read<'a>(
        &self,
        alloc: Global,
        _starts: &mut Starts,
        text: &'a [u8],
    ) -> Result<(StructField, &'a [u8]), Stop> {
        field(alloc, text)
    }
}

impl Production<Access> for Accessors {
    ghost reading = { λ _. access_reading };

    ghost shrinks = { λ _. access_shrinks };

    fn read<'a>(
        &self,
        alloc: Global,
        _starts: &mut Starts,
        text: &'a [u8],
    ) -> Result<(Access, &'a [u8]), Stop> {
        access(alloc, text)
    }
}

impl Production<Identifier> for Markers {
    ghost reading = { λ _. marker_reading };

    ghost shrinks = { λ _. marker_shrinks };

    fn read<'a>(
        &self,
        alloc: Global,
        _starts: &mut Starts,
        text: &'a [u8],
    ) -> Result<(Identifier, &'a [u8]), Stop> {
        marker(alloc, text)
    }
}

impl Production<Reader> for Readers {
    ghost reading = { λ production. reader_reading production.version };

    ghost shrinks = { λ production. reader_shrinks production.version };

    fn read<'a>(
        &self,
        alloc: Global,
        _starts: &mut Starts,
        text: &'a [u8],
    ) -> Result<(Reader, &'a [u8]), Stop> {
        reader(alloc, self.version, text)
    }
}

impl Production<Writer> for Writers {
    ghost reading = { λ production. writer_reading production.version };

    ghost shrinks = { λ production. writer_shrinks production.version };

    fn read<'a>(
        &self,
        alloc: Global,
        _starts: &mut Starts,
        text: &'a [u8],
    ) -> Result<(Writer, &'a [u8]), Stop> {
        writer(alloc, self.version, text)
    }
}

impl Production<TruthCall> for TruthCalls {
    ghost reading = { λ production. truth_calls production.reads };

    ghost shrinks = { λ production. truth_calls_shrink production.reads };

    fn read<'a>(
        &self,
        alloc: Global,
        _starts: &mut Starts,
        text: &'a [u8],
    ) -> Result<(TruthCall, &'a [u8]), Stop> {
        truth_call(alloc, self.reads, text)
    }
}

impl Production<NumberCall> for NumberCalls {
    ghost reading = { λ production. number_calls production.reads };

    ghost shrinks = { λ production. number_calls_shrink production.reads };

    fn read<'a>(
        &self,
        alloc: Global,
        _starts: &mut Starts,
        text: &'a [u8],
    ) -> Result<(NumberCall, &'a [u8]), Stop> {
        number_call(alloc, self.reads, text)
    }
}

impl Production<Values> for ValueBlocks {
    ghost reading = { λ _. values_reading };

    ghost shrinks = { λ _. values_shrinks };

    fn read<'a>(
        &self,
        alloc: Global,
        starts: &mut Starts,
        text: &'a [u8],
    ) -> Result<(Values, &'a [u8]), Stop> {
        values(alloc, starts, text)
    }
}
