//! What elements take from their sources.
ghost use Rattle.std.specs.Prelude.{◌≡◌};
ghost use Rattle.derive_build.specs.Nodes.{own_node};
ghost use Rattle.derive_build.specs.Taking.{places_by, keys_by, dim_taken, taking};
ghost use Rattle.derive_build.specs.declared.own.Own.TheVariants as own;
ghost use Rattle.svd_model.specs.declared.device.Cluster.{out-Cluster};
ghost use Rattle.svd_model.specs.Trees.{peripheral_places, cluster_places, register_places, field_places, set_places};

use crate::own::Own;
use pac_base::Name;
use svd_model::{Cluster, Field, Peripheral, Props, Register, Sibling, Values};
use svd_values::{DimIndex, Place, ReadAction, Usage, WriteKind};

/// The keys of an element, but for its name, its source, and a base or an offset that it states in any case. Those that
/// its kind doesn't have are left out.
#[derive(Clone, Copy)]
pub struct Keys<'a> {
    /// How many members there are.
    pub count: Option<u64>,
    /// How far one member stands behind the one before.
    pub step: Option<u64>,
    /// The indexes of the members.
    pub index: Option<&'a DimIndex>,
    /// The place of a field.
    pub place: Place,
    /// The register or cluster whose place it may share.
    pub alternate: Option<&'a Name>,
    /// The group of registers that may share its place.
    pub group: Option<&'a Name>,
    /// The properties; of a field the access alone.
    pub props: Props,
    /// What a write does.
    pub kind: Option<WriteKind>,
    /// What a read does.
    pub action: Option<ReadAction>,
    /// For which direction a set of values holds.
    pub usage: Option<Usage>,
}

/// What an element takes of a dimension.
fn dim_taken(marked: bool, own: Option<u64>, source: Option<u64>) -> Option<u64>
    ensures { result ≡ dim_taken marked own source }
{
    if marked { own.or(source) } else { own }
}

impl<'a> Keys<'a> {
    /// The own keys of an element, and those of its source that aren't stated; those of a dimension only where the
    /// name of the element is `marked` by `%s`.
    pub fn taking(&self, marked: bool, source: &Keys<'a>) -> Keys<'a>
        ensures { result ≡ taking marked self.now source.now }
    {
        Keys {
            count: dim_taken(marked, self.count, source.count),
            step: dim_taken(marked, self.step, source.step),
            index: if marked {
                self.index.or(source.index)
            } else {
                self.index
            },
            place: Place {
                offset: self.place.offset.or(source.place.offset),
                width: self.place.width.or(source.place.width),
            },
            alternate: self.alternate.or(source.alternate),
            group: self.group.or(source.group),
            props: Props {
                size: self.props.size.or(source.props.size),
                access: self.props.access.or(source.props.access),
                reset_value: self.props.reset_value.or(source.props.reset_value),
                reset_mask: self.props.reset_mask.or(source.props.reset_mask),
            },
            kind: self.kind.or(source.kind),
            action: self.action.or(source.action),
            usage: self.usage.or(source.usage),
        }
    }
}

/// No keys.
fn no_keys<'a>() -> Keys<'a> {
    Keys {
        count: None,
        step: None,
        index: None,
        place: Place {
            offset: None,
            width: None,
        },
        alternate: None,
        group: None,
        props: Props {
            size: None,
            access: None,
            reset_value: None,
            reset_mask: None,
        },
        kind: None,
        action: None,
        usage: None,
    }
}

#[tactic(auto, unfolding(svd_model::specs::Trees::peripheral_places))]
fn of_peripheral<'a>(key: &'a Sibling, element: &'a Peripheral) -> Keys<'a>
    ensures { places_by (own.Peripheral key.entry element.entry) result ≡ peripheral_places element.entry.now }
{
    Keys {
        count: element.dim.count,
        step: element.dim.step,
        index: element.dim.index.as_ref(),
        place: Place {
            offset: None,
            width: None,
        },
        alternate: None,
        group: None,
        props: element.props,
        kind: None,
        action: None,
        usage: None,
    }
}

#[tactic(auto, unfolding(svd_model::specs::Trees::cluster_places))]
fn of_cluster<'a>(key: &'a Sibling, element: &'a Cluster) -> Keys<'a>
    ensures { places_by (own.Cluster key.entry element.entry) result ≡ cluster_places (out-Cluster element.entry.now) }
{
    Keys {
        count: element.dim.count,
        step: element.dim.step,
        index: element.dim.index.as_ref(),
        place: Place {
            offset: None,
            width: None,
        },
        alternate: element.alternate.as_ref(),
        group: None,
        props: element.props,
        kind: None,
        action: None,
        usage: None,
    }
}

#[tactic(auto, unfolding(svd_model::specs::Trees::register_places))]
fn of_register<'a>(key: &'a Sibling, element: &'a Register) -> Keys<'a>
    ensures { places_by (own.Register key.entry element.entry) result ≡ register_places element.entry.now }
{
    Keys {
        count: element.dim.count,
        step: element.dim.step,
        index: element.dim.index.as_ref(),
        place: Place {
            offset: None,
            width: None,
        },
        alternate: element.alternate.as_ref(),
        group: element.group.as_ref(),
        props: element.props,
        kind: element.kind,
        action: element.action,
        usage: None,
    }
}

#[tactic(auto, unfolding(svd_model::specs::Trees::field_places))]
fn of_field<'a>(key: &'a Sibling, element: &'a Field) -> Keys<'a>
    ensures { places_by (own.Field key.entry element.entry) result ≡ field_places element.entry.now }
{
    Keys {
        count: element.dim.count,
        step: element.dim.step,
        index: element.dim.index.as_ref(),
        place: element.place,
        alternate: None,
        group: None,
        props: Props {
            size: None,
            access: element.access,
            reset_value: None,
            reset_mask: None,
        },
        kind: element.kind,
        action: element.action,
        usage: None,
    }
}

fn of_set<'a>(element: &'a Values) -> Keys<'a>
    ensures { places_by (own.Set element.entry) result ≡ set_places element.entry.now }
{
    Keys {
        count: None,
        step: None,
        index: None,
        place: Place {
            offset: None,
            width: None,
        },
        alternate: None,
        group: None,
        props: Props {
            size: None,
            access: None,
            reset_value: None,
            reset_mask: None,
        },
        kind: None,
        action: None,
        usage: element.usage,
    }
}

/// The keys that an element states.
pub fn keys_of(own: Own<'_>) -> Keys<'_>
    ensures { keys_by own.entry result ≡ (own_node own.entry).keys }
{
    match own {
        Own::Device(_) => no_keys(),
        Own::Peripheral(key, element) => of_peripheral(key, element),
        Own::Cluster(key, element) => of_cluster(key, element),
        Own::Register(key, element) => of_register(key, element),
        Own::Field(key, element) => of_field(key, element),
        Own::Set(element) => of_set(element),
        Own::Value(_) => no_keys(),
    }
}
