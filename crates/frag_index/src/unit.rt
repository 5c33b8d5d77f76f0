ghost use Rattle.std.specs.Prelude.{◌≡◌, IfOk, find, option_map};
ghost use Rattle.std.specs.Str.{bytes_eq};
ghost use Rattle.frag_rules.specs.Keys.{key_of, key_seen};
ghost use Rattle.frag_sem.specs.ProxyTypes.{ProxyType, numbers_on, reader_type, readers_of, truths_on, writer_type, writers_of};

use crate::calls::{call_on, numbers_in, truths_in};
use frag_rules::{
    CallKey, Named, TypeKey, by_name, key_of_reader, key_of_writer, readers_of, writers_of,
};
use frag_tree::{NumberCall, Reader, RegisterModule, TruthCall, Writer};
use indexmap::IndexMap;
use pac_base::{NoMemory, Width};
use std::alloc::Global;
use std::marker::Model;

/// The module of a register, with what is looked up in it by name. Contracts see it as the module.
#[derive(Drop)]
pub struct Unit<'a> {
    register: &'a RegisterModule,
    readers: Named<'a, &'a Reader>,
    writers: Named<'a, &'a Writer>,
    truths: IndexMap<CallKey<'a>, &'a TruthCall>,
    numbers: IndexMap<CallKey<'a>, &'a NumberCall>,
}

impl<'a> Model for Unit<'a> {
    ghost use Rattle.frag_index.specs.Calls.{FindsAll};
    ghost use Rattle.frag_tree.specs.declared.register.RegisterModule.{RegisterModule};

    ghost Value = { RegisterModule };

    ghost view = { λ unit. unit.register.now };

    ghost invariant = { λ unit. FindsAll unit.register.now unit.readers unit.writers unit.truths unit.numbers };
}

impl<'a> Unit<'a> {
    /// The module of a register, each item of which is looked at once.
    pub(crate) fn new(alloc: Global, register: &'a RegisterModule) -> Result<Unit<'a>, NoMemory>
        ensures { IfOk result (λ unit. unit ≡ register.now) }
    {
        let readers = by_name(alloc, readers_of(register))?;
        let writers = by_name(alloc, writers_of(register))?;
        let truths = truths_in(alloc, register.values.as_slice())?;
        let numbers = numbers_in(alloc, register.values.as_slice())?;
        Ok(Unit {
            register,
            readers,
            writers,
            truths,
            numbers,
        })
    }

    /// The module.
    pub fn register(&self) -> &'a RegisterModule
        ensures { result.now ≡ self.now }
    {
        self.register
    }

    /// The width of its word.
    pub fn word(&self) -> Width
        ensures { result ≡ self.now.word }
    {
        self.register.word
    }

    /// The word that it has after a reset.
    pub fn reset(&self) -> u64
        ensures { result ≡ self.now.reset.value }
    {
        self.register.reset.value
    }

    /// The reader of a name.
    pub fn reader(&self, name: &[u8]) -> Option<&'a Reader>
        ensures { option_map (λ reader. reader.now) result ≡ find (λ reader. bytes_eq name.now reader.name) (readers_of self.now) }
    {
        self.readers.get(name).copied()
    }

    /// The writer of a name.
    pub fn writer(&self, name: &[u8]) -> Option<&'a Writer>
        ensures { option_map (λ writer. writer.now) result ≡ find (λ writer. bytes_eq name.now writer.name) (writers_of self.now) }
    {
        self.writers.get(name).copied()
    }

    /// The call of a name for a truth that stands on a type.
    fn truth(&self, on: TypeKey<'_>, name: &[u8]) -> Option<&'a TruthCall>
        ensures { (type : ProxyType) → key_seen on.entry ≡ key_of type → option_map (λ call. call.now) result ≡ find (λ call. bytes_eq name.now call.name) (truths_on type self.now.values) }
    {
        call_on(&self.truths, on, name)
    }

    /// The call of a name for a number that stands on a type.
    fn number(&self, on: TypeKey<'_>, name: &[u8]) -> Option<&'a NumberCall>
        ensures { (type : ProxyType) → key_seen on.entry ≡ key_of type → option_map (λ call. call.now) result ≡ find (λ call. bytes_eq name.now call.name) (numbers_on type self.now.values) }
    {
        call_on(&self.numbers, on, name)
    }

    /// The call of a name for a truth that stands on the type of a reader.
    pub fn read_truth(&self, reader: &Reader, name: &[u8]) -> Option<&'a TruthCall>
        ensures { option_map (λ call. call.now) result ≡ find (λ call. bytes_eq name.now call.name) (truths_on (reader_type reader.now) self.now.values) }
    {
        self.truth(key_of_reader(reader), name)
    }

    /// The call of a name for a number that stands on the type of a reader.
    pub fn read_number(&self, reader: &Reader, name: &[u8]) -> Option<&'a NumberCall>
        ensures { option_map (λ call. call.now) result ≡ find (λ call. bytes_eq name.now call.name) (numbers_on (reader_type reader.now) self.now.values) }
    {
        self.number(key_of_reader(reader), name)
    }

    /// The call of a name for a truth that stands on the type of a writer.
    pub fn write_truth(&self, writer: &Writer, name: &[u8]) -> Option<&'a TruthCall>
        ensures { option_map (λ call. call.now) result ≡ find (λ call. bytes_eq name.now call.name) (truths_on (writer_type writer.now) self.now.values) }
    {
        self.truth(key_of_writer(writer), name)
    }

    /// The call of a name for a number that stands on the type of a writer.
    pub fn write_number(&self, writer: &Writer, name: &[u8]) -> Option<&'a NumberCall>
        ensures { option_map (λ call. call.now) result ≡ find (λ call. bytes_eq name.now call.name) (numbers_on (writer_type writer.now) self.now.values) }
    {
        self.number(key_of_writer(writer), name)
    }
}
