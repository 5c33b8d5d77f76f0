ghost use Rattle.std.specs.Prelude.{◌≡◌, ◌++◌, ◌<◌, ◌≤◌, OnOk};
ghost use Rattle.std.specs.List.{flat_map};
ghost use Rattle.pac_io.specs.Writing.{SinkCause, Writes};
ghost use Rattle.pac_sample.specs.Description.{field_a, field_b, field_place, kind_of, register_state, reset_value, sample_peripheral, sample_register, sample_text};
ghost use Rattle.pac_sample.specs.Numbered.{registers_of};
ghost use Rattle.pac_sample.specs.Wanted.{IsCount};

use crate::element::{push_end, push_name, push_number, push_start, push_word};
use crate::parts::{Parts, push_parts, write_parts};
use pac_base::NoMemory;
use pac_io::{Page, Sink, SinkFault};
use std::alloc::Global;

/// How many registers stand in a peripheral; the last one may have fewer.
pub(crate) const REGISTERS: u64 = 64;

/// The registers of a sample.
#[derive(Drop)]
struct Registers {
    /// The reset value of the first one.
    number: u64,
}

/// The peripherals of a sample.
#[derive(Drop)]
struct Peripherals {
    registers: Registers,
    /// How many registers there are, at most 65,536.
    count: u64,

    ghost within: { count ≤ 65536 },
}

/// Writes a description of as many registers as `count` says, 64 in each peripheral but maybe the last. Register `j`
/// has the reset value `number + 40503 * j` modulo 2^32 and two fields, A and B, that differ by `j`. Its condition is
/// that there are 1 to 65,536 registers.
pub fn sample_text<S: Sink>(
    alloc: Global,
    number: u64,
    count: u64,
    sink: &mut S,
) -> Result<(), SinkFault>
    requires { IsCount count }
    ensures growth { Writes result (S.written sink.old) (S.written sink.new) (sample_text number count) }
    ensures cause { SinkCause result (S.faults sink.old) (S.faults sink.new) }
{
    let peripherals = Peripherals {
        registers: Registers { number },
        count,
    };
    let head = b"<device><name>D</name><peripherals>";
    let tail = b"</peripherals></device>";
    write_parts(
        alloc,
        &peripherals,
        count.div_ceil(REGISTERS),
        head,
        tail,
        sink,
    )
}

impl Parts for Peripherals {
    ghost part = { λ peripherals p. sample_peripheral peripherals.registers.number peripherals.count p };

    #[tactic(auto, unfolding(crate::specs::Description::sample_peripheral))]
    fn push_part(&self, page: &mut Page, number: u64) -> Result<(), NoMemory> {
        push_start(page, b"peripheral")?;
        push_name(page, b"P", number)?;
        push_number(page, b"baseAddress", 0x4000_0000 + 0x400 * number)?;
        push_start(page, b"registers")?;
        push_registers(page, self, number)?;
        push_end(page, b"registers")?;
        push_end(page, b"peripheral")
    }
}

/// Appends the registers of peripheral `p`.
fn push_registers(page: &mut Page, peripherals: &Peripherals, p: u64) -> Result<(), NoMemory>
    requires { p < 65536 }
    ensures { let registers = registers_of peripherals.now.count p in
        OnOk result (page.new ≡ page.old ++ flat_map (sample_register peripherals.now.registers.number) registers) }
{
    let first = REGISTERS * p;
    let end = (first + REGISTERS).min(peripherals.count);
    push_parts(page, &peripherals.registers, first, end)
}

impl Parts for Registers {
    ghost part = { λ registers j. sample_register registers.number j };

    #[tactic(auto, unfolding(crate::specs::Description::sample_register))]
    fn push_part(&self, page: &mut Page, number: u64) -> Result<(), NoMemory> {
        push_start(page, b"register")?;
        push_name(page, b"R", number % REGISTERS)?;
        push_number(page, b"addressOffset", 4 * (number % REGISTERS))?;
        push_state(page, reset_value(self.number, number), number)?;
        push_end(page, b"register")
    }
}

/// The reset value of register `j`.
fn reset_value(number: u64, j: u64) -> u64
    requires { j < 65536 }
    ensures { result ≡ reset_value number j }
{
    const WORDS: u64 = 1 << 32;
    (number % WORDS + 40_503 * j) % WORDS
}

/// Appends what register `j` holds behind its offset.
#[tactic(auto, unfolding(crate::specs::Description::register_state))]
fn push_state(page: &mut Page, reset: u64, j: u64) -> Result<(), NoMemory>
    requires { j < 65536 }
    ensures { OnOk result (page.new ≡ page.old ++ register_state reset j) }
{
    push_number(page, b"size", 32)?;
    push_number(page, b"resetValue", reset)?;
    push_start(page, b"fields")?;
    push_field_a(page, j)?;
    push_field_b(page, j)?;
    push_end(page, b"fields")
}

/// Appends field A of register `j`.
#[tactic(auto, unfolding(crate::specs::Description::field_a))]
fn push_field_a(page: &mut Page, j: u64) -> Result<(), NoMemory>
    ensures { OnOk result (page.new ≡ page.old ++ field_a j) }
{
    push_start(page, b"field")?;
    push_place(page, b"A", 0, 8)?;
    push_word(page, b"modifiedWriteValues", kind_of(j))?;
    push_end(page, b"field")
}

/// Appends field B of register `j`.
#[tactic(auto, unfolding(crate::specs::Description::field_b))]
fn push_field_b(page: &mut Page, j: u64) -> Result<(), NoMemory>
    ensures { OnOk result (page.new ≡ page.old ++ field_b j) }
{
    push_start(page, b"field")?;
    push_place(page, b"B", 8, 2 + j % 7)?;
    push_end(page, b"field")
}

/// Appends the name of a field, its first bit, and its width in bits.
#[tactic(auto, unfolding(crate::specs::Description::field_place))]
fn push_place(page: &mut Page, name: &[u8], offset: u64, width: u64) -> Result<(), NoMemory>
    ensures { OnOk result (page.new ≡ page.old ++ field_place name.now offset width) }
{
    push_word(page, b"name", name)?;
    push_number(page, b"bitOffset", offset)?;
    push_number(page, b"bitWidth", width)
}

/// What a write does to field A of register `j`.
fn kind_of(j: u64) -> &'static [u8]
    ensures { result.now ≡ kind_of j }
{
    match j % 3 {
        0 => b"modify",
        1 => b"oneToClear",
        _ => b"zeroToSet",
    }
}
