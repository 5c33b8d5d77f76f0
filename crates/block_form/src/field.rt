ghost use Rattle.std.specs.Prelude.{◌≡◌, ◌≤◌, ◌<◌, ◌^◌, IfOk};
ghost use Rattle.block_form.specs.Children.{array_fits, child_end, element_of, field_of, held};
ghost use Rattle.block_form.specs.Gaps.{gap_field, gap_name};
ghost use Rattle.block_form.specs.Fields.{becomes_field};

use crate::child::{Array, Child, ChildKind};
use frag_tree::{Element, FieldType, Identifier, StructField};
use itoa::Buffer;
use pac_base::NoMemory;
use std::alloc::Global;

/// Whether a child becomes a field of a struct whose last field ends here.
pub(crate) fn becomes_field(end: u128, child: &Child) -> bool
    requires { 1 ≤ child.now.align }
    ensures { result ≡ becomes_field end child.now }
{
    end <= u128::from(child.offset)
        && child.offset % child.align == 0
        && array_fits(child.size, child.array)
}

fn array_fits(size: u128, array: Option<Array>) -> bool
    ensures { result ≡ array_fits size array }
{
    match array {
        None => true,
        Some(array) => u128::from(array.stride) == size || array.count == 1,
    }
}

/// Where a child ends that becomes a field.
pub(crate) fn child_end(child: &Child) -> u128
    requires { child_end child.now ≤ 2 ^ 64 }
    ensures { result ≡ child_end child.now }
{
    match child.array {
        None => u128::from(child.offset) + child.size,
        Some(array) => u128::from(child.offset) + u128::from(array.count) * child.size,
    }
}

/// The element of a child: its module, as a register or as a block.
pub(crate) fn element(child: &Child) -> Result<Element, NoMemory>
    ensures { IfOk result (λ element. element ≡ element_of child.now) }
{
    let module = child.name.copy()?;
    match child.kind {
        ChildKind::Register => Ok(Element::Register { module }),
        ChildKind::Block => Ok(Element::Block { module }),
    }
}

/// The field of a child in the struct.
pub(crate) fn child_field(child: &Child) -> Result<StructField, NoMemory>
    ensures { IfOk result (λ field. field ≡ field_of child.now) }
{
    let name = child.name.copy()?;
    let element = element(child)?;
    Ok(StructField {
        name,
        holds: held(element, child.array),
    })
}

fn held(element: Element, array: Option<Array>) -> FieldType
    ensures { result ≡ held element array }
{
    match array {
        None => FieldType::One(element),
        Some(Array { count, .. }) => FieldType::Array { element, count },
    }
}

/// The gap of this number, which fills so many bytes.
pub(crate) fn gap_field(alloc: Global, number: u64, bytes: u64) -> Result<StructField, NoMemory>
    ensures { IfOk result (λ field. field ≡ gap_field number bytes) }
{
    Ok(StructField {
        name: gap_name(alloc, number)?,
        holds: FieldType::Gap { bytes },
    })
}

/// `_reservedN`.
fn gap_name(alloc: Global, number: u64) -> Result<Identifier, NoMemory>
    ensures { IfOk result (λ name. name ≡ gap_name number) }
{
    let mut buffer = Buffer::new();
    let mut bytes = Vec::from_slice(alloc, b"_reserved".as_slice())?;
    bytes.extend_from_slice(buffer.format(number).as_bytes())?;
    Identifier::known(alloc, bytes.as_slice())
}
