ghost use Rattle.std.specs.Prelude.{◌≡◌, map, option_map};
ghost use Rattle.derive_sources.specs.Entries.{plain, kind_of};
ghost use Rattle.derive_sources.specs.Numbers.{item_at, is_set};
ghost use Rattle.svd_model.specs.Steps.{kind_number, same_kind};

use pac_base::Path;

/// What an element is.
#[derive(Clone, Copy)]
pub enum Kind {
    /// A peripheral.
    Peripheral,
    /// A group of registers.
    Cluster,
    /// A register.
    Register,
    /// A field.
    Field,
    /// A set of enumerated values.
    Set,
    /// An enumerated value.
    Value,
}

/// An element of a device. Its number is its place in document order, where the device itself is 0.
#[derive(Clone, Copy)]
pub struct Entry<'a> {
    /// The number of its parent; the device has none.
    pub parent: Option<usize>,
    /// What it is; the device is of no kind.
    pub kind: Option<Kind>,
    /// Its written name, which is empty for the device and for a set without one.
    pub name: &'a [u8],
    /// The names that it gives of its source.
    pub names: Option<&'a Path>,
}

impl Kind {
    fn number(self) -> u8
        ensures { result ≡ kind_number (kind_of self) }
    {
        match self {
            Kind::Peripheral => 0,
            Kind::Cluster => 1,
            Kind::Register => 2,
            Kind::Field => 3,
            Kind::Set => 4,
            Kind::Value => 5,
        }
    }

    /// Whether both are one kind.
    pub fn is(self, other: Kind) -> bool
        ensures { result ≡ same_kind (kind_of self) (kind_of other) }
    {
        self.number() == other.number()
    }
}

/// The element of a number, or the one of no kind where there is none.
pub fn entry_at<'a>(entries: &[Entry<'a>], number: usize) -> Entry<'a>
    ensures { plain result ≡ item_at (map plain entries.now) number }
{
    match entries.get(number) {
        Some(entry) => *entry,
        None => Entry {
            parent: None,
            kind: None,
            name: b"",
            names: None,
        },
    }
}

/// Whether an element is a set of enumerated values.
pub(crate) fn is_set(kind: Option<Kind>) -> bool
    ensures { result ≡ is_set (option_map kind_of kind) }
{
    match kind {
        Some(kind) => Kind::Set.is(kind),
        None => false,
    }
}
