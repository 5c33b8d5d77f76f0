ghost use Rattle.std.specs.Prelude.{◌≡◌, true, IfOk};
ghost use Rattle.std.specs.List.{AllByRecursion};
ghost use Rattle.pac_base.specs.Widths.{bits_of};
ghost use Rattle.reg_table.specs.Fields.{FieldFits};
ghost use Rattle.reg_table.specs.Registers.{register_row};
ghost use Rattle.svd_model.specs.Checking.{is_size, width_of};
ghost use Rattle.svd_model.specs.Properties.{register_properties, size_at};
ghost use Rattle.svd_model.specs.Steps.{same_step};
ghost use Rattle.svd_model.specs.Trees.{register_tree};
ghost use Rattle.svd_rows.specs.Elements.{IsDistinct};
ghost use Rattle.svd_rows.specs.Rows.{rows};

use crate::fields::field_rows;
use crate::masks::{one_mask, zero_mask};
use crate::row::{Row, RowPath};
use pac_base::{NoMemory, Width};
use std::alloc::Global;
use svd_model::{Props, Register};

/// The row of a register with this path and address, inside of which properties `outer` hold.
pub fn register_row(
    alloc: Global,
    path: RowPath,
    address: u64,
    register: &Register,
    outer: &Props,
) -> Result<Row, NoMemory>
    requires size { is_size (size_at (register_properties register.now outer.now)) ≡ true }
    requires distinct { IsDistinct same_step (register_tree register.now).below }
    requires fields { AllByRecursion (FieldFits (bits_of (width_of (size_at (register_properties register.now outer.now))))) register.now.fields.entries }
    ensures { IfOk result (λ row. row ≡ register_row path address (register_properties register.now outer.now) (rows (register_tree register.now))) }
{
    let facts = register.facts(outer);
    let width = width_of(facts.size);
    let fields = field_rows(alloc, register, &facts, width)?;
    Ok(Row {
        path,
        address,
        width,
        readable: facts.readable,
        writable: facts.writable,
        reset: facts.reset,
        one: one_mask(fields.as_slice()),
        zero: zero_mask(fields.as_slice()),
        fields,
    })
}

/// The width of a register of that size.
fn width_of(size: u64) -> Width
    requires { is_size size ≡ true }
    ensures { result ≡ width_of size }
{
    match Width::from_size(size) {
        Some(width) => width,
        None => unreachable!(),
    }
}
