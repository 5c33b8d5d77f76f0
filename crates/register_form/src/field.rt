ghost use Rattle.std.specs.Prelude.{◌≡◌, ◌≤◌, IfOk};
ghost use Rattle.frag_sem.specs.PreludeWords.{ones};
ghost use Rattle.register_form.specs.Fields.{HasBits, is_bit, least_width, read_form, reader_of, spot_of, write_form, writer_of};

use crate::register::{Field, FieldArray};
use frag_tree::{ReadForm, Reader, Spot, WriteForm, Writer};
use pac_base::{NoMemory, Width};

/// The least of the four types that holds so many bits.
pub(crate) fn least_width(bits: u64) -> Width
    ensures { result ≡ least_width bits }
{
    if bits <= 8 {
        Width::W8
    } else if bits <= 16 {
        Width::W16
    } else if bits <= 32 {
        Width::W32
    } else {
        Width::W64
    }
}

/// So many ones.
fn ones(bits: u64) -> u64
    requires some { 1 ≤ bits }
    requires most { bits ≤ 64 }
    ensures { result ≡ ones bits }
{
    u64::MAX >> (64 - bits)
}

/// Where a field lies: at its offset, or at a step for each index.
fn spot(offset: u64, array: Option<FieldArray>) -> Spot
    ensures { result ≡ spot_of offset array }
{
    match array {
        None => Spot::Fixed(offset),
        Some(FieldArray { count, step }) => Spot::Indexed {
            offset,
            step,
            count,
        },
    }
}

fn read_form(field: &Field) -> ReadForm
    requires { HasBits field.now }
    ensures { result ≡ read_form (is_bit field.now) field.now }
{
    let spot = spot(field.offset, field.array);
    if field.bits == 1 {
        return ReadForm::Bit { spot, mask: 1 };
    }
    ReadForm::Field {
        width: least_width(field.bits),
        spot,
        mask: ones(field.bits),
    }
}

fn write_form(field: &Field) -> WriteForm
    ensures { result ≡ write_form (is_bit field.now) field.now }
{
    let spot = spot(field.offset, field.array);
    if field.bits == 1 {
        return WriteForm::Bit {
            kind: field.kind,
            spot,
        };
    }
    WriteForm::Field {
        width: least_width(field.bits),
        bits: field.bits,
        spot,
    }
}

/// The call that reads a field.
pub(crate) fn reader(field: &Field) -> Result<Reader, NoMemory>
    requires { HasBits field.now }
    ensures { IfOk result (λ reader. reader ≡ reader_of field.now) }
{
    Ok(Reader {
        name: field.name.copy()?,
        marker: field.marker.copy()?,
        form: read_form(field),
    })
}

/// The call that writes a field.
pub(crate) fn writer(field: &Field) -> Result<Writer, NoMemory>
    ensures { IfOk result (λ writer. writer ≡ writer_of field.now) }
{
    Ok(Writer {
        name: field.name.copy()?,
        marker: field.marker.copy()?,
        form: write_form(field),
    })
}
