ghost use Rattle.std.specs.Prelude.{◌≡◌, ◌≢◌, [], map, option_map, IfOk};
ghost use Rattle.std.specs.List.{AllByRecursion};
ghost use Rattle.crate_form.specs.Elements.{CallIsNamed, FieldIsReady, HasName, IsMarked, StandsAlone, entry_marker, register_at};
ghost use Rattle.crate_form.specs.Registers.{bit_kind, field_array, field_of, marked, number_call};
ghost use Rattle.svd_model.specs.Trees.{register_under};

use crate::name::{accessor_of, marker_of, some_name};
use frag_tree::{BitKind, Identifier, NumberCall};
use indexmap::IndexMap;
use pac_base::{NoMemory, Seq};
use reg_table::{Call, FieldDim, FieldRow, RowPath, register_row};
use register_form::{Field, FieldArray, Register};
use std::alloc::Global;
use svd_model::{Field as Declared, Props, Register as Element, Sibling};
use svd_values::WriteKind;

/// The writer of a bit, by what a write does to it.
fn bit_kind(kind: WriteKind) -> BitKind
    ensures { result ≡ bit_kind kind }
{
    match kind {
        WriteKind::OneToSet => BitKind::OneToSet,
        WriteKind::ZeroToClear => BitKind::ZeroToClear,
        WriteKind::OneToClear => BitKind::OneToClear,
        WriteKind::ZeroToSet => BitKind::ZeroToSet,
        WriteKind::OneToToggle => BitKind::OneToToggle,
        WriteKind::ZeroToToggle => BitKind::ZeroToToggle,
        WriteKind::Clear | WriteKind::Set | WriteKind::Modify => BitKind::Plain,
    }
}

fn field_array(dim: Option<FieldDim>) -> Option<FieldArray>
    ensures { result ≡ option_map field_array dim }
{
    match dim {
        Some(FieldDim { count, step }) => Some(FieldArray { count, step }),
        None => None,
    }
}

fn number_calls(alloc: Global, calls: &[Call]) -> Result<Seq<NumberCall>, NoMemory>
    requires { AllByRecursion CallIsNamed calls.now }
    ensures { IfOk result (λ made. made ≡ map number_call calls.now) }
{
    let mut made = Seq::new(alloc);
    for call in calls {
        made.push(NumberCall {
            name: Identifier::known(alloc, call.name.bytes())?,
            value: call.value,
        })?;
    }
    Ok(made)
}

/// A field with this marker.
fn field(alloc: Global, marker: Identifier, row: &FieldRow) -> Result<Field, NoMemory>
    requires { FieldIsReady row.now }
    ensures { IfOk result (λ made. made ≡ field_of marker row.now) }
{
    Ok(Field {
        name: Identifier::known(alloc, row.name.bytes())?,
        marker,
        offset: u64::from(row.offset),
        bits: u64::from(row.width),
        array: field_array(row.dim),
        readable: row.readable,
        writable: row.writable,
        kind: bit_kind(row.kind),
        tests: number_calls(alloc, row.is_calls.as_slice())?,
        sets: number_calls(alloc, row.set_calls.as_slice())?,
    })
}

/// The fields of these rows, each with the marker of the field that is declared in its place.
fn fields(
    alloc: Global,
    elements: &IndexMap<Sibling, Declared>,
    rows: &[FieldRow],
) -> Result<Seq<Field>, NoMemory>
    requires marked { AllByRecursion IsMarked elements.now.entries }
    requires ready { AllByRecursion FieldIsReady rows.now }
    ensures { IfOk result (λ made. made ≡ marked (map entry_marker elements.now.entries) rows.now) }
{
    let mut made = Seq::new(alloc);
    let mut left = rows;
    for (key, _element) in elements {
        let Some((first, others)) = left.split_first() else {
            return Ok(made);
        };
        made.push(field(alloc, marker_of(alloc, &key.name)?, first)?)?;
        left = others;
    }
    Ok(made)
}

// Each written name has a byte. It does nothing, and is here for the proof alone.
fn some_names(elements: &IndexMap<Sibling, Declared>)
    ensures { AllByRecursion HasName elements.now.entries }
{
    for (key, _element) in elements {
        some_name(&key.name);
    }
}

/// What the module of a register is made of, inside of which properties `outer` hold.
pub(crate) fn register_in(
    alloc: Global,
    key: &Sibling,
    element: &Element,
    outer: &Props,
) -> Result<Register, NoMemory>
    requires { StandsAlone outer.now (register_under key.now element.now) }
    ensures { IfOk result (λ made. made ≡ register_at outer.now (register_under key.now element.now)) }
{
    let path = RowPath {
        slot: key.name.copy(alloc)?,
        steps: Seq::new(alloc),
    };
    let row = register_row(alloc, path, 0, element, outer)?;
    some_names(&element.fields);
    Ok(Register {
        name: accessor_of(alloc, &key.name)?,
        word: row.width,
        readable: row.readable,
        writable: row.writable,
        reset: row.reset,
        one: row.one,
        zero: row.zero,
        fields: fields(alloc, &element.fields, row.fields.as_slice())?,
    })
}
