use crate::fault::PlacedFault;
use pac_base::{Name, Path, Text};
use svd_model::{Dim, Props};
use svd_values::{Access, Place, ReadAction, Usage, WriteKind};

/// What an element of a description states: the values of its keys (CMSIS-SVD 1.3). A key that it
/// doesn't state, or whose value isn't in its form, is none.
#[derive(Drop)]
pub struct Keys {
    /// The written name of a peripheral, cluster, register, field or set of enumerated values.
    pub name: Option<Name>,
    /// The name of a device or of an enumerated value.
    pub label: Option<Text>,
    /// The element from which it is derived.
    pub derived: Option<Path>,
    /// How often it stands.
    pub dim: Dim,
    /// The address of a peripheral.
    pub base: Option<u64>,
    /// How many bytes behind the start of its parent a cluster or register starts.
    pub offset: Option<u64>,
    /// The cluster or register whose place it may share.
    pub alternate: Option<Name>,
    /// The group of registers that may share its place.
    pub group: Option<Name>,
    /// The properties of registers that it states; of a field the access alone.
    pub props: Props,
    /// What a write does to it.
    pub kind: Option<WriteKind>,
    /// What a read does to it.
    pub action: Option<ReadAction>,
    /// The bits that a field covers.
    pub place: Place,
    /// For which direction a set of enumerated values holds.
    pub usage: Option<Usage>,
    /// The number of an enumerated value.
    pub value: Option<u64>,
    /// Whether an enumerated value is the default.
    pub is_default: bool,
}

/// What an element states, and what is wrong with it by itself.
#[derive(Drop)]
pub struct Stated {
    /// The values of its keys.
    pub keys: Keys,
    /// The fault of least place, where there is one.
    pub fault: Option<PlacedFault>,
}
