ghost use Rattle.std.specs.Prelude.{◌≡◌, ◌+◌, ◌≤◌, unwrap_or};
ghost use Rattle.reg_table.specs.Members.{member_at, member_count};
ghost use Rattle.reg_table.specs.Walk.{index_at};

use crate::row::FieldRow;

/// How many members a field has: one, where it is no array.
pub(crate) fn member_count(field: &FieldRow) -> u64
    ensures { result ≡ unwrap_or (member_count field.now) 1 }
{
    match field.dim {
        Some(dim) => dim.count,
        None => 1,
    }
}

/// The index of the member of this number: only an array's members have one.
pub(crate) fn member_index(field: &FieldRow, number: u64) -> Option<u64>
    ensures { result ≡ index_at (member_count field.now) number }
{
    match field.dim {
        Some(_) => Some(number),
        None => None,
    }
}

/// The number of the lowest bit of the member of this number.
pub(crate) fn member_bit(field: &FieldRow, number: u64) -> u32
    requires { member_at field.now (index_at (member_count field.now) number) + field.now.width ≤ 64 }
    ensures { result ≡ member_at field.now (index_at (member_count field.now) number) }
{
    match field.dim {
        Some(dim) => field.offset + (number * dim.step) as u32,
        None => field.offset,
    }
}
