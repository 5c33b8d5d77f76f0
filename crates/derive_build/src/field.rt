//! Fields and registers, made of settled elements.
ghost use Rattle.std.specs.Prelude.{◌≡◌, ℕ, Some, map, IfOk, OnOk};
ghost use Rattle.derive_build.specs.Making.{AddsUnder, MakesUnder};
ghost use Rattle.derive_build.specs.Nodes.{own_node};
ghost use Rattle.derive_build.specs.Tables.{HasKids, tree_of};
ghost use Rattle.derive_build.specs.Taking.{field_by, keys_by, register_by};
ghost use Rattle.svd_model.specs.Steps.{register, set};
ghost use Rattle.svd_model.specs.Trees.{numbered, set_tree, field_tree, field_under, register_tree};
ghost use Rattle.svd_rows.specs.Forest.{siblings};
ghost use Rattle.svd_rows.specs.Ranks.{stated};

use crate::copies::{copied_key, copied_name, dim_of};
use crate::keys::Keys;
use crate::settled::Settled;
use crate::value::sets_of;
use indexmap::IndexMap;
use pac_base::NoMemory;
use std::alloc::Global;
use svd_model::{Field, Register, Sibling, Values, copied_path};

/// A field with these keys and sets.
#[tactic(auto, unfolding(svd_model::specs::Trees::field_places))]
fn field_of(
    alloc: Global,
    keys: &Keys<'_>,
    element: &Field,
    values: Vec<Values>,
) -> Result<Field, NoMemory>
    ensures { IfOk result (λ made. field_tree made ≡ record { keys = stated (field_by element.now keys.now); below = numbered set 0 (map set_tree values.items) }) }
{
    Ok(Field {
        derived: copied_path(alloc, &element.derived)?,
        dim: dim_of(alloc, keys)?,
        place: keys.place,
        access: keys.props.access,
        kind: keys.kind,
        action: keys.action,
        values,
    })
}

/// Adds the field of a number, where it has a key that is none of those before it.
fn add_field(
    alloc: Global,
    table: &[Settled<'_>],
    number: usize,
    made: &mut IndexMap<Sibling, Field>,
) -> Result<(), NoMemory>
    ensures { OnOk result ((levels : ℕ) → AddsUnder field_under (Some register) table.now levels made.old.entries made.new.entries number) }
{
    match table.get(number) {
        Some(settled) => match settled.own.field() {
            Some((key, element)) => {
                let values = sets_of(alloc, table, settled.children.as_slice())?;
                let field = field_of(alloc, &settled.keys, element, values)?;
                made.insert(copied_key(alloc, key)?, field)?;
                Ok(())
            }
            None => Ok(()),
        },
        None => Ok(()),
    }
}

/// The fields of these numbers.
fn fields_of(
    alloc: Global,
    table: &[Settled<'_>],
    numbers: &[usize],
) -> Result<IndexMap<Sibling, Field>, NoMemory>
    ensures { IfOk result (λ made. (levels : ℕ) → MakesUnder field_under (Some register) table.now levels made.entries numbers.now) }
{
    let mut made = IndexMap::new(alloc);
    for number in numbers {
        add_field(alloc, table, *number, &mut made)?;
    }
    Ok(made)
}

/// A register with these keys and fields.
#[tactic(auto, unfolding(svd_model::specs::Trees::register_places))]
fn with_fields(
    alloc: Global,
    keys: &Keys<'_>,
    element: &Register,
    fields: IndexMap<Sibling, Field>,
) -> Result<Register, NoMemory>
    ensures { IfOk result (λ made. register_tree made ≡ record { keys = stated (register_by element.now keys.now); below = siblings (map field_under fields.entries) }) }
{
    Ok(Register {
        derived: copied_path(alloc, &element.derived)?,
        dim: dim_of(alloc, keys)?,
        offset: element.offset,
        alternate: copied_name(alloc, keys.alternate)?,
        group: copied_name(alloc, keys.group)?,
        props: keys.props,
        kind: keys.kind,
        action: keys.action,
        fields,
    })
}

/// The register that a settled element is.
pub(crate) fn register_of(
    alloc: Global,
    table: &[Settled<'_>],
    settled: &Settled<'_>,
    element: &Register,
) -> Result<Register, NoMemory>
    requires kind { (own_node settled.now.own).kind ≡ Some register }
    requires keys { keys_by settled.now.own settled.now.keys ≡ stated (register_by element.now settled.now.keys) }
    ensures { IfOk result (λ made. (levels : ℕ) → HasKids table.now levels settled.now → register_tree made ≡ tree_of table.now levels settled.now) }
{
    let fields = fields_of(alloc, table, settled.children.as_slice())?;
    with_fields(alloc, &settled.keys, element, fields)
}
