ghost use Rattle.std.specs.Prelude.{◌≡◌, ◌++◌, map, IfOk, OnOk};
ghost use Rattle.register_form.specs.Fields.{is_bit, read_values, sets_of, tests_of, truth_call_of, values_of, write_values};

use crate::field::least_width;
use crate::register::Field;
use frag_tree::{NumberCall, TruthCall, Values};
use pac_base::{NoMemory, Seq};
use std::alloc::Global;

fn number_calls(alloc: Global, calls: &[NumberCall]) -> Result<Seq<NumberCall>, NoMemory>
    ensures { IfOk result (λ copied. copied ≡ calls.now) }
{
    let mut copied = Seq::new(alloc);
    for call in calls {
        copied.push(NumberCall {
            name: call.name.copy()?,
            value: call.value,
        })?;
    }
    Ok(copied)
}

fn truth_calls(alloc: Global, calls: &[NumberCall]) -> Result<Seq<TruthCall>, NoMemory>
    ensures { IfOk result (λ made. made ≡ map truth_call_of calls.now) }
{
    let mut made = Seq::new(alloc);
    for call in calls {
        made.push(TruthCall {
            name: call.name.copy()?,
            value: call.value == 1,
        })?;
    }
    Ok(made)
}

fn read_values(alloc: Global, field: &Field) -> Result<Values, NoMemory>
    ensures { IfOk result (λ block. block ≡ read_values (is_bit field.now) field.now) }
{
    let marker = field.marker.copy()?;
    let calls = field.tests.as_slice();
    if field.bits == 1 {
        return Ok(Values::BitReading {
            marker,
            calls: truth_calls(alloc, calls)?,
        });
    }
    Ok(Values::FieldReading {
        marker,
        width: least_width(field.bits),
        calls: number_calls(alloc, calls)?,
    })
}

fn write_values(alloc: Global, field: &Field) -> Result<Values, NoMemory>
    ensures { IfOk result (λ block. block ≡ write_values (is_bit field.now) field.now) }
{
    let marker = field.marker.copy()?;
    let calls = field.sets.as_slice();
    if field.bits == 1 {
        return Ok(Values::BitWriting {
            kind: field.kind,
            marker,
            calls: truth_calls(alloc, calls)?,
        });
    }
    Ok(Values::FieldWriting {
        marker,
        width: least_width(field.bits),
        bits: field.bits,
        calls: number_calls(alloc, calls)?,
    })
}

// Adds the calls that read a field's values.
fn push_tests(alloc: Global, blocks: &mut Seq<Values>, field: &Field) -> Result<(), NoMemory>
    ensures { OnOk result (blocks.new ≡ blocks.old ++ tests_of field.now) }
{
    if field.readable && field.tests.len() > 0 {
        blocks.push(read_values(alloc, field)?)?;
    }
    Ok(())
}

// Adds the calls that write a field's values.
fn push_sets(alloc: Global, blocks: &mut Seq<Values>, field: &Field) -> Result<(), NoMemory>
    ensures { OnOk result (blocks.new ≡ blocks.old ++ sets_of field.now) }
{
    if field.writable && field.sets.len() > 0 {
        blocks.push(write_values(alloc, field)?)?;
    }
    Ok(())
}

/// Adds the calls of a field's values: those that read, and then those that write.
pub(crate) fn push_values(
    alloc: Global,
    blocks: &mut Seq<Values>,
    field: &Field,
) -> Result<(), NoMemory>
    ensures { OnOk result (blocks.new ≡ blocks.old ++ values_of field.now) }
{
    push_tests(alloc, blocks, field)?;
    push_sets(alloc, blocks, field)
}
