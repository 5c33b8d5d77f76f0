ghost use Rattle.std.specs.Prelude.{◌≡◌, Bool, [], unwrap_or};
ghost use Rattle.std.specs.Option.{option_eq};
ghost use Rattle.std.specs.Cmp.Lexicographic.{pointwise};
ghost use Rattle.std.specs.Str.{bytes_eq};
ghost use Rattle.patch_sem.specs.Likeness.{same_index};
ghost use Rattle.patch_arrays.specs.Unplaced.{of_set, same_dim, same_path, same_props, same_set, same_unplaced, same_value, same_written};

use pac_base::{Name, Path, Step};
use svd_model::{Dim, Props, Values, Variant};
use svd_values::{DimIndex, Words};

/// What may be compared with another of its type.
trait Compared {
    // Whether the two are the same.
    ghost same: { Self → Self → Bool };

    /// Whether it is the same as the other.
    fn is_same(&self, other: &Self) -> bool
        ensures { result ≡ same self.now other.now };
}

/// Whether two lists are the same, item by item.
fn all_same<T: Compared>(one: &[T], other: &[T]) -> bool
    ensures { result ≡ pointwise T.same one.now other.now }
{
    if one.len() != other.len() {
        return false;
    }
    for index in 0..one.len() {
        if !one[index].is_same(&other[index]) {
            return false;
        }
    }
    true
}

impl Compared for Name {
    ghost same = { bytes_eq };

    fn is_same(&self, other: &Name) -> bool {
        self == other
    }
}

impl Compared for Step {
    ghost same = { same_written };

    fn is_same(&self, other: &Step) -> bool {
        self.name == other.name && self.index == other.index
    }
}

/// Whether both have the same path, or none.
pub(crate) fn same_path(one: &Option<Path>, other: &Option<Path>) -> bool
    ensures { result ≡ same_path one.now other.now }
{
    match one {
        Some(path) => match other {
            Some(others) => all_same(path.as_slice(), others.as_slice()),
            None => false,
        },
        None => other.is_none(),
    }
}

fn same_words(one: &Words, other: &Words) -> bool
    ensures { result ≡ pointwise bytes_eq one.now other.now }
{
    all_same(one.as_slice(), other.as_slice())
}

fn same_index(one: &DimIndex, other: &DimIndex) -> bool
    ensures { result ≡ same_index one.now other.now }
{
    match one {
        DimIndex::Numbers { first, last } => match other {
            DimIndex::Numbers {
                first: begin,
                last: end,
            } => *first == *begin && *last == *end,
            _ => false,
        },
        DimIndex::Letters { first, last } => match other {
            DimIndex::Letters {
                first: begin,
                last: end,
            } => *first == *begin && *last == *end,
            _ => false,
        },
        DimIndex::Words(words) => match other {
            DimIndex::Words(others) => same_words(words, others),
            _ => false,
        },
    }
}

fn same_indexes(one: &Option<DimIndex>, other: &Option<DimIndex>) -> bool
    ensures { result ≡ option_eq same_index one.now other.now }
{
    match one {
        Some(index) => match other {
            Some(also) => same_index(index, also),
            None => false,
        },
        None => other.is_none(),
    }
}

/// Whether both stand equally often, at the same steps.
pub(crate) fn same_dim(one: &Dim, other: &Dim) -> bool
    ensures { result ≡ same_dim one.now other.now }
{
    one.count == other.count && one.step == other.step && same_indexes(&one.index, &other.index)
}

/// Whether both state the same properties.
pub(crate) fn same_props(one: &Props, other: &Props) -> bool
    ensures { result ≡ same_props one.now other.now }
{
    one.size == other.size
        && one.reset_value == other.reset_value
        && one.reset_mask == other.reset_mask
        && one.access == other.access
}

impl Compared for Variant {
    ghost same = { same_value };

    fn is_same(&self, other: &Variant) -> bool {
        self.name.as_str() == other.name.as_str() && self.value == other.value
    }
}

// The bytes of a name; none where there is no name.
fn written(name: &Option<Name>) -> &[u8]
    ensures { result.now ≡ unwrap_or name.now [] }
{
    match name {
        Some(name) => name.bytes(),
        None => b"".as_slice(),
    }
}

#[tactic(auto, unfolding(crate::specs::Unplaced::same_unplaced))]
fn same_set_keys(one: &Values, other: &Values) -> bool
    ensures { result ≡ same_unplaced (of_set one.now) (of_set other.now) }
{
    one.usage == other.usage && same_path(&one.derived, &other.derived)
}

impl Compared for Values {
    ghost same = { same_set };

    fn is_same(&self, other: &Values) -> bool {
        if written(&self.name) != written(&other.name) {
            return false;
        }
        same_set_keys(self, other) && all_same(self.items.as_slice(), other.items.as_slice())
    }
}

/// Whether two lists of sets of enumerated values are the same.
pub(crate) fn same_sets(one: &[Values], other: &[Values]) -> bool
    ensures { result ≡ pointwise same_set one.now other.now }
{
    all_same(one, other)
}
