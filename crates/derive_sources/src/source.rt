//! From which element another is derived.
ghost use Rattle.std.specs.Prelude.{◌≡◌, ◌<◌, ◌∷◌, [], true, false, map, option_map, option_and_then, length, IfSome};
ghost use Rattle.derive_sources.specs.Entries.{plain, kind_of};
ghost use Rattle.derive_sources.specs.Numbers.{AreNumbered, Rows, path_at, is_of_kind};
ghost use Rattle.derive_sources.specs.Places.{Holds};
ghost use Rattle.derived_rows.specs.Sources.{ancestors, followed, of_kind, reached, second_try, source_among, source_of};
ghost use Rattle.svd_model.specs.Properties.{nearest};
ghost use Rattle.svd_model.specs.Steps.{set};

use crate::entry::{Entry, Kind, entry_at};
use crate::index::{Index, outer_of};
use pac_base::Step;

/// Where names lead to from an element.
fn followed(
    entries: &[Entry<'_>],
    children: &Index<'_>,
    names: &[Step],
    from: usize,
) -> Option<usize>
    ghost all: { Rows }
    requires numbered { AreNumbered all (map plain entries.now) }
    requires children { Holds (map plain entries.now) false children.now }
    requires inside { from < length entries.now }
    ensures found { option_map (path_at all) result ≡ followed all names.now (path_at all from) }
    ensures inside { IfSome result (λ found. found < length entries.now) }
{
    let mut at = from;
    for name in names {
        match children.get(at, name.name.bytes()) {
            Some(next) => at = next,
            None => return None,
        }
    }
    Some(at)
}

/// An element, where it is of a kind.
fn of_kind(entries: &[Entry<'_>], kind: Kind, found: Option<usize>) -> Option<usize>
    ghost all: { Rows }
    requires numbered { AreNumbered all (map plain entries.now) }
    requires inside { IfSome found (λ number. number < length entries.now) }
    ensures { option_map (path_at all) result ≡ option_and_then (of_kind (kind_of kind)) (option_map (path_at all) found) }
{
    match found {
        Some(number) => {
            if is_of(entry_at(entries, number).kind, kind) {
                Some(number)
            } else {
                None
            }
        }
        None => None,
    }
}

/// The element of a kind to which names lead from another.
fn reached(
    entries: &[Entry<'_>],
    children: &Index<'_>,
    kind: Kind,
    names: &[Step],
    from: usize,
) -> Option<usize>
    ghost all: { Rows }
    requires numbered { AreNumbered all (map plain entries.now) }
    requires children { Holds (map plain entries.now) false children.now }
    requires inside { from < length entries.now }
    ensures { option_map (path_at all) result ≡ reached all (kind_of kind) names.now (path_at all from) }
{
    match names {
        [_, ..] => of_kind(entries, kind, followed(entries, children, names, from)),
        _ => None,
    }
}

/// Whether a kind is there, and is this one.
fn is_of(one: Option<Kind>, kind: Kind) -> bool
    ensures { result ≡ is_of_kind (kind_of kind) (option_map kind_of one) }
{
    match one {
        Some(one) => kind.is(one),
        None => false,
    }
}

/// The first element of a kind to which names lead from those round another, the nearest first.
fn nearest(
    entries: &[Entry<'_>],
    children: &Index<'_>,
    kind: Kind,
    names: &[Step],
    number: usize,
) -> Option<usize>
    ghost all: { Rows }
    requires numbered { AreNumbered all (map plain entries.now) }
    requires children { Holds (map plain entries.now) false children.now }
    requires inside { number < length entries.now }
    ensures { option_map (path_at all) result ≡ nearest (map (reached all (kind_of kind) names.now) (ancestors (path_at all number))) }
{
    let mut round = entry_at(entries, number).parent;
    while let Some(from) = round {
        if let Some(found) = reached(entries, children, kind, names, from) {
            return Some(found);
        }
        round = entry_at(entries, from).parent;
    }
    None
}

/// The first set of a name among the fields of the register round a set.
fn set_named(entries: &[Entry<'_>], sets: &Index<'_>, name: &Step, number: usize) -> Option<usize>
    ghost all: { Rows }
    requires numbered { AreNumbered all (map plain entries.now) }
    requires sets { Holds (map plain entries.now) true sets.now }
    requires inside { number < length entries.now }
    ensures { option_map (path_at all) result ≡ second_try all set (name.now ∷ []) (ancestors (path_at all number)) }
{
    match outer_of(entries, &entry_at(entries, number)) {
        Some(register) => sets.get(register, name.name.bytes()),
        None => None,
    }
}

/// A set with one name is sought among all fields of its register.
fn second(
    entries: &[Entry<'_>],
    sets: &Index<'_>,
    kind: Kind,
    names: &[Step],
    number: usize,
) -> Option<usize>
    ghost all: { Rows }
    requires numbered { AreNumbered all (map plain entries.now) }
    requires sets { Holds (map plain entries.now) true sets.now }
    requires inside { number < length entries.now }
    ensures { option_map (path_at all) result ≡ second_try all (kind_of kind) names.now (ancestors (path_at all number)) }
{
    if !kind.is(Kind::Set) {
        return None;
    }
    match names {
        [name] => set_named(entries, sets, name, number),
        _ => None,
    }
}

/// The element of a kind that names reach from those round another.
fn sought(
    entries: &[Entry<'_>],
    children: &Index<'_>,
    sets: &Index<'_>,
    kind: Kind,
    names: &[Step],
    number: usize,
) -> Option<usize>
    ghost all: { Rows }
    requires numbered { AreNumbered all (map plain entries.now) }
    requires children { Holds (map plain entries.now) false children.now }
    requires sets { Holds (map plain entries.now) true sets.now }
    requires inside { number < length entries.now }
    ensures { option_map (path_at all) result ≡ source_among all (kind_of kind) names.now (ancestors (path_at all number)) }
{
    match nearest(entries, children, kind, names, number) {
        Some(found) => Some(found),
        None => second(entries, sets, kind, names, number),
    }
}

/// The element from which another is derived.
pub(crate) fn source_of(
    entries: &[Entry<'_>],
    children: &Index<'_>,
    sets: &Index<'_>,
    number: usize,
) -> Option<usize>
    ghost all: { Rows }
    requires numbered { AreNumbered all (map plain entries.now) }
    requires children { Holds (map plain entries.now) false children.now }
    requires sets { Holds (map plain entries.now) true sets.now }
    requires inside { number < length entries.now }
    ensures { option_map (path_at all) result ≡ source_of all (path_at all number) }
{
    let entry = entry_at(entries, number);
    match entry.kind {
        Some(kind) => match entry.names {
            Some(names) => sought(entries, children, sets, kind, names.as_slice(), number),
            None => None,
        },
        None => None,
    }
}
