ghost use Rattle.std.specs.Prelude.{◌≡◌, ◌+◌, ◌≤◌, map, unwrap_or, IfOk};
ghost use Rattle.std.specs.List.{AllByRecursion};
ghost use Rattle.pac_base.specs.Widths.{bits_of};
ghost use Rattle.reg_table.specs.Fields.{FieldFits, field_dim, field_part, field_row};

use crate::calls::{Direction, calls_of_sets};
use crate::row::{FieldDim, FieldRow, FieldRows};
use indexmap::IndexMap;
use pac_base::{NoMemory, Seq, Width};
use std::alloc::Global;
use svd_model::{Field, Register, RegisterFacts, Sibling};
use svd_values::{Place, accessor};

/// The rows of a register's fields.
pub(crate) fn field_rows(
    alloc: Global,
    register: &Register,
    facts: &RegisterFacts,
    width: Width,
) -> Result<FieldRows, NoMemory>
    requires { AllByRecursion (FieldFits (bits_of width)) register.now.fields.entries }
    ensures { IfOk result (λ made. made ≡ map (λ entry. field_row facts.now.readable facts.now.writable register.now.kind (field_part entry)) register.now.fields.entries) }
{
    let mut made = Seq::new(alloc);
    for (key, field) in &register.fields {
        made.push(field_row(alloc, key, field, register, facts, width)?)?;
    }
    Ok(made)
}

fn field_row(
    alloc: Global,
    key: &Sibling,
    field: &Field,
    register: &Register,
    facts: &RegisterFacts,
    width: Width,
) -> Result<FieldRow, NoMemory>
    requires { FieldFits (bits_of width) (key.now, field.now) }
    ensures { IfOk result (λ row. row ≡ field_row facts.now.readable facts.now.writable register.now.kind (field_part (key.now, field.now))) }
{
    let _bits = width.bits();
    let facts = field.facts(register, facts);
    let (offset, width) = bits_of_place(field.place);
    Ok(FieldRow {
        name: accessor(alloc, &key.name)?,
        offset,
        width,
        dim: field_dim(field.dim.count, field.dim.step),
        readable: facts.readable,
        writable: facts.writable,
        kind: facts.kind,
        is_calls: calls_of_sets(alloc, Direction::Reading, field.values.as_slice(), width)?,
        set_calls: calls_of_sets(alloc, Direction::Writing, field.values.as_slice(), width)?,
    })
}

/// The number of the lowest bit, and how many bits there are: one where nothing is stated.
fn bits_of_place(place: Place) -> (u32, u32)
    requires { unwrap_or place.offset 0 + unwrap_or place.width 1 ≤ 64 }
    ensures offset { result.0 ≡ unwrap_or place.offset 0 }
    ensures width { result.1 ≡ unwrap_or place.width 1 }
{
    let offset = place.offset.unwrap_or(0);
    let width = place.width.unwrap_or(1);
    (offset as u32, width as u32)
}

/// The members, where `dim` is stated.
fn field_dim(count: Option<u64>, increment: Option<u64>) -> Option<FieldDim>
    ensures { result ≡ field_dim count increment }
{
    match count {
        None => None,
        Some(count) => Some(FieldDim {
            count,
            step: increment.unwrap_or(0),
        }),
    }
}
