//! Whether a field is an array. The calls of such a field take an index, which a text of the second version has.
ghost use Rattle.std.specs.Prelude.{◌≡◌, is_some};
ghost use Rattle.std.specs.List.{list_any};
ghost use Rattle.crate_form.specs.Elements.{HasArrays, HaveArrays};
ghost use Rattle.svd_model.specs.Trees.{item_under};

use svd_model::{Child, Item, Register};

/// Whether a field of one of these registers, or of one below these clusters, is an array.
#[cycle(search)]
pub(crate) fn any_has_arrays(items: &[Item]) -> bool
    ensures { HaveArrays items.now result }
{
    for item in items {
        if item_has_arrays(item) {
            return true;
        }
    }
    false
}

/// Whether a field of a register, or of one below a cluster, is an array.
#[cycle(search)]
fn item_has_arrays(item: &Item) -> bool
    ensures { HasArrays (item_under item.now) result }
{
    match &item.child {
        Child::Cluster(cluster) => any_has_arrays(cluster.children.as_slice()),
        Child::Register(register) => register_has_arrays(register),
    }
}

/// Whether a field of a register is an array.
fn register_has_arrays(register: &Register) -> bool
    ensures { result ≡ list_any (λ entry. is_some entry.1.dim.count) register.now.fields.entries }
{
    for (_key, field) in &register.fields {
        if field.dim.count.is_some() {
            return true;
        }
    }
    false
}
