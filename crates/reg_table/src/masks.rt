ghost use Rattle.std.specs.Prelude.{◌≡◌, ◌&&◌, All, if◌then◌else◌};
ghost use Rattle.reg_table.specs.Listing.{FitsIn};
ghost use Rattle.reg_table.specs.Masks.{field_mask, is_by_one, is_by_zero, mask_of, places_of};

use crate::member::member_bit;
use crate::row::{FieldDim, FieldRow};
use bits_word::Word;
use svd_values::WriteKind;

/// The bits of writable fields on which a written one acts.
pub(crate) fn one_mask(fields: &[FieldRow]) -> u64
    requires { All (FitsIn 64) fields.now }
    ensures { result ≡ mask_of is_by_one fields.now }
{
    let mut mask = 0;
    for field in fields {
        mask |= bits_of_field(field, is_by_one(field.kind));
    }
    mask
}

/// The bits of writable fields on which a written zero acts.
pub(crate) fn zero_mask(fields: &[FieldRow]) -> u64
    requires { All (FitsIn 64) fields.now }
    ensures { result ≡ mask_of is_by_zero fields.now }
{
    let mut mask = 0;
    for field in fields {
        mask |= bits_of_field(field, is_by_zero(field.kind));
    }
    mask
}

/// The bits of a field, if it is writable and its kind is one of the mask's.
fn bits_of_field(field: &FieldRow, is_of_kind: bool) -> u64
    requires { FitsIn 64 field.now }
    ensures { result ≡ (if field.now.writable && is_of_kind then field_mask field.now else 0) }
{
    if field.writable && is_of_kind {
        field_mask(field)
    } else {
        0
    }
}

/// The bits of a field: of each of its members, where it is an array.
fn field_mask(field: &FieldRow) -> u64
    requires { FitsIn 64 field.now }
    ensures { result ≡ field_mask field.now }
{
    let mut mask = 0;
    for number in 0..places_of(field.dim) {
        mask |= <u64 as Word>::mask(member_bit(field, number), field.width);
    }
    mask
}

/// How many members lie at places of their own: with a step of 0 all lie at that of the first.
fn places_of(dim: Option<FieldDim>) -> u64
    ensures { result ≡ places_of dim }
{
    match dim {
        None => 1,
        Some(dim) if dim.step == 0 => dim.count.min(1),
        Some(dim) => dim.count,
    }
}

fn is_by_one(kind: WriteKind) -> bool
    ensures { result ≡ is_by_one kind }
{
    matches!(
        kind,
        WriteKind::OneToClear | WriteKind::OneToSet | WriteKind::OneToToggle
    )
}

fn is_by_zero(kind: WriteKind) -> bool
    ensures { result ≡ is_by_zero kind }
{
    matches!(
        kind,
        WriteKind::ZeroToClear | WriteKind::ZeroToSet | WriteKind::ZeroToToggle
    )
}
