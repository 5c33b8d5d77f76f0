ghost use Rattle.std.specs.Prelude.{◌≡◌, ◌∷◌, [], IfOk, OnOk, map};
ghost use Rattle.svd_model.specs.Trees.{field_under, field_tree};
ghost use Rattle.svd_rows.specs.Forest.{siblings};
ghost use Rattle.dim_expand.specs.Narrow.{AreFew};
ghost use Rattle.dim_expand.specs.Tallies.{Pushes};
ghost use Rattle.dim_expand.specs.Walks.{capped, group_tree, groups_at, unfolded, unfolded_list};

use crate::group::{group_at, group_dim, group_name, group_place, list_count};
use crate::tally::Tally;
use indexmap::IndexMap;
use pac_base::NoMemory;
use std::alloc::Global;
use svd_model::{Field, Sibling, copied_path, copied_sets};

/// A group of a field.
fn field_group(alloc: Global, element: &Field, group: Option<u64>) -> Result<Field, NoMemory>
    ensures { IfOk result (λ made. field_tree made ≡ group_tree capped (field_tree element.now) group) }
{
    Ok(Field {
        derived: copied_path(alloc, &element.derived)?,
        dim: group_dim(alloc, &element.dim, group)?,
        place: group_place(element.place, &element.dim, group),
        access: element.access,
        kind: element.kind,
        action: element.action,
        values: copied_sets(alloc, element.values.as_slice())?,
    })
}

fn push_field(
    alloc: Global,
    key: &Sibling,
    element: &Field,
    made: &mut IndexMap<Sibling, Field>,
    tally: &mut Tally,
    group: Option<u64>,
) -> Result<(), NoMemory>
    ensures { OnOk result (Pushes tally.old.counts.entries (map field_under made.old.entries) (groups_at capped (field_under (key.now, element.now)) (group ∷ [])) tally.new.counts.entries (map field_under made.new.entries)) }
{
    let name = group_name(alloc, &key.name, &element.dim, group)?;
    let field = field_group(alloc, element, group)?;
    let key = tally.next(alloc, name)?;
    made.insert(key, field)?;
    Ok(())
}

fn push_fields(
    alloc: Global,
    key: &Sibling,
    element: &Field,
    made: &mut IndexMap<Sibling, Field>,
    tally: &mut Tally,
) -> Result<(), NoMemory>
    ensures { OnOk result (Pushes tally.old.counts.entries (map field_under made.old.entries) (unfolded_list capped (siblings (field_under (key.now, element.now) ∷ []))) tally.new.counts.entries (map field_under made.new.entries)) }
{
    let count = list_count(true, &key.name, &element.dim);
    for place in 0..count.unwrap_or(1) {
        push_field(alloc, key, element, made, tally, group_at(count, place))?;
    }
    Ok(())
}

/// The fields of a register, where each list has become its members.
pub fn unfolded_fields(
    alloc: Global,
    fields: &IndexMap<Sibling, Field>,
) -> Result<IndexMap<Sibling, Field>, NoMemory>
    ensures { IfOk result (λ made. AreFew (siblings (map field_under fields.now.entries)) → siblings (map field_under made.entries) ≡ unfolded capped (siblings (map field_under fields.now.entries))) }
{
    let mut made = IndexMap::new(alloc);
    let mut tally = Tally::new(alloc);
    for (key, field) in fields {
        push_fields(alloc, key, field, &mut made, &mut tally)?;
    }
    Ok(made)
}
