ghost use Rattle.std.specs.Prelude.{◌≡◌, ◌++◌, ◌+◌, ◌≤◌, ◌<◌, Some, unwrap_or, All, OnOk};
ghost use Rattle.std.specs.List.{flat_map};
ghost use Rattle.pac_base.specs.Widths.{bits_of};
ghost use Rattle.pac_io.specs.Writing.{Writes, SinkCause};
ghost use Rattle.reg_table.specs.Listing.{FitsIn, IsListed, address_text, bits_text, direction_text, effect_text, field_lines, index_text, listing, member_line, path_text, register_line, row_lines, state_text, step_text, word_text};
ghost use Rattle.reg_table.specs.Members.{member_count};
ghost use Rattle.reg_table.specs.Walk.{index_at};
ghost use Rattle.svd_values.specs.SchemaWords.{write_kind_text};

use crate::member::{member_bit, member_count, member_index};
use crate::row::{FieldRow, Row, RowPath, Table};
use pac_base::{NoMemory, Step, Width};
use pac_io::{Page, Sink, SinkFault};
use std::alloc::Global;
use svd_values::WriteKind;

/// Writes the lines of each row: that of the register, and those of its fields, one for each member of an array. Its
/// condition is that each row's reset word fits its width, and that each field has a bit and each member of it lies
/// within that width.
pub fn list_text<S: Sink>(alloc: Global, table: &Table, sink: &mut S) -> Result<(), SinkFault>
    requires { All IsListed table.now }
    ensures growth { Writes result (S.written sink.old) (S.written sink.new) (listing table.now) }
    ensures cause { SinkCause result (S.faults sink.old) (S.faults sink.new) }
{
    let mut page = Page::new(alloc);
    for row in table.as_slice() {
        push_row(&mut page, row)?;
        page.turn(sink)?;
    }
    page.finish(sink)
}

fn push_row(page: &mut Page, row: &Row) -> Result<(), NoMemory>
    requires { IsListed row.now }
    ensures { OnOk result (page.new ≡ page.old ++ row_lines row.now) }
{
    push_register(page, row)?;
    push_fields(page, row.fields.as_slice(), row.width)
}

#[tactic(auto, unfolding(crate::specs::Listing::register_line))]
fn push_register(page: &mut Page, row: &Row) -> Result<(), NoMemory>
    ensures { OnOk result (page.new ≡ page.old ++ register_line row.now) }
{
    push_path(page, &row.path)?;
    page.push(b" ")?;
    push_address(page, row.address)?;
    page.push(b" ")?;
    page.decimal(u64::from(row.width.bits()))?;
    page.push(b" ")?;
    push_state(page, row)
}

#[tactic(auto, unfolding(crate::specs::Listing::state_text))]
fn push_state(page: &mut Page, row: &Row) -> Result<(), NoMemory>
    ensures { OnOk result (page.new ≡ page.old ++ state_text row.now) }
{
    page.push(direction_text(row.readable, row.writable))?;
    page.push(b" ")?;
    push_word(page, row.width, row.reset)?;
    page.push(b"\n")
}

fn push_path(page: &mut Page, path: &RowPath) -> Result<(), NoMemory>
    ensures { OnOk result (page.new ≡ page.old ++ path_text path.now) }
{
    page.push(path.slot.bytes())?;
    push_steps(page, path.steps.as_slice())
}

fn push_steps(page: &mut Page, steps: &[Step]) -> Result<(), NoMemory>
    ensures { OnOk result (page.new ≡ page.old ++ flat_map step_text steps.now) }
{
    for step in steps {
        push_step(page, step)?;
    }
    Ok(())
}

fn push_step(page: &mut Page, step: &Step) -> Result<(), NoMemory>
    ensures { OnOk result (page.new ≡ page.old ++ step_text step.now) }
{
    page.push(b".")?;
    page.push(step.name.bytes())?;
    push_index(page, step.index)
}

fn push_index(page: &mut Page, index: Option<u64>) -> Result<(), NoMemory>
    ensures { OnOk result (page.new ≡ page.old ++ index_text index) }
{
    match index {
        Some(index) => push_bracketed(page, index),
        None => Ok(()),
    }
}

fn push_bracketed(page: &mut Page, index: u64) -> Result<(), NoMemory>
    ensures { OnOk result (page.new ≡ page.old ++ index_text (Some index)) }
{
    page.push(b"[")?;
    page.decimal(index)?;
    page.push(b"]")
}

fn push_address(page: &mut Page, address: u64) -> Result<(), NoMemory>
    ensures { OnOk result (page.new ≡ page.old ++ address_text address) }
{
    page.push(b"0x")?;
    page.hexadecimal(address, 8)
}

fn push_word(page: &mut Page, width: Width, word: u64) -> Result<(), NoMemory>
    ensures { OnOk result (page.new ≡ page.old ++ word_text (bits_of width) word) }
{
    page.push(b"0x")?;
    page.hexadecimal(word, (width.bits() / 4) as u8)
}

fn push_fields(page: &mut Page, fields: &[FieldRow], width: Width) -> Result<(), NoMemory>
    requires { All (FitsIn (bits_of width)) fields.now }
    ensures { OnOk result (page.new ≡ page.old ++ flat_map field_lines fields.now) }
{
    for field in fields {
        push_field(page, field, width)?;
    }
    Ok(())
}

fn push_field(page: &mut Page, field: &FieldRow, width: Width) -> Result<(), NoMemory>
    requires { FitsIn (bits_of width) field.now }
    ensures { OnOk result (page.new ≡ page.old ++ field_lines field.now) }
{
    for number in 0..member_count(field) {
        push_member(page, field, number, width)?;
    }
    Ok(())
}

#[tactic(auto, unfolding(crate::specs::Listing::member_line))]
fn push_member(page: &mut Page, field: &FieldRow, number: u64, width: Width) -> Result<(), NoMemory>
    requires member { number < unwrap_or (member_count field.now) 1 }
    requires fits { FitsIn (bits_of width) field.now }
    ensures { OnOk result (page.new ≡ page.old ++ member_line field.now (index_at (member_count field.now) number)) }
{
    let _bits = width.bits();
    page.push(b"  ")?;
    page.push(field.name.bytes())?;
    push_index(page, member_index(field, number))?;
    page.push(b" ")?;
    push_bits(page, member_bit(field, number), field.width)?;
    page.push(b" ")?;
    push_effect(page, field)
}

#[tactic(auto, unfolding(crate::specs::Listing::bits_text))]
fn push_bits(page: &mut Page, offset: u32, width: u32) -> Result<(), NoMemory>
    requires some { 1 ≤ width }
    requires within { offset + width ≤ 64 }
    ensures { OnOk result (page.new ≡ page.old ++ bits_text offset width) }
{
    page.push(b"[")?;
    page.decimal(u64::from(offset + width - 1))?;
    page.push(b":")?;
    page.decimal(u64::from(offset))?;
    page.push(b"]")
}

#[tactic(auto, unfolding(crate::specs::Listing::effect_text))]
fn push_effect(page: &mut Page, field: &FieldRow) -> Result<(), NoMemory>
    ensures { OnOk result (page.new ≡ page.old ++ effect_text field.now) }
{
    page.push(direction_text(field.readable, field.writable))?;
    page.push(b" ")?;
    page.push(kind_text(field.kind))?;
    page.push(b"\n")
}

fn direction_text(readable: bool, writable: bool) -> &'static [u8]
    ensures { result.now ≡ direction_text readable writable }
{
    match (readable, writable) {
        (true, true) => b"rw",
        (true, false) => b"ro",
        (false, true) => b"wo",
        (false, false) => b"--",
    }
}

fn kind_text(kind: WriteKind) -> &'static [u8]
    ensures { result.now ≡ write_kind_text kind }
{
    match kind {
        WriteKind::OneToClear => b"oneToClear",
        WriteKind::OneToSet => b"oneToSet",
        WriteKind::OneToToggle => b"oneToToggle",
        WriteKind::ZeroToClear => b"zeroToClear",
        WriteKind::ZeroToSet => b"zeroToSet",
        WriteKind::ZeroToToggle => b"zeroToToggle",
        WriteKind::Clear => b"clear",
        WriteKind::Set => b"set",
        WriteKind::Modify => b"modify",
    }
}
