ghost use Rattle.std.specs.Prelude.{◌≡◌, ◌≤◌, ◌^◌, [], ◌∷◌, ◌++◌, length, map, nat_lt, not, if◌then◌else◌, IfOk, OnOk};
ghost use Rattle.std.specs.List.{list_any};
ghost use Rattle.std.specs.Str.{bytes_eq};
ghost use Rattle.reg_table.specs.Calls.{AreNamed, SetsAreNamed, call_name, call_of, calls_of, name_for, plain_set, plain_value, serves, set_calls_of, with_call};

use crate::row::{Call, Calls};
use indexmap::IndexSet;
use pac_base::{Name, NoMemory, Seq, Text};
use std::alloc::Global;
use svd_model::{Values, Variant};
use svd_values::{Usage, is_call, variant_call};

/// For which direction calls are sought.
#[derive(Clone, Copy)]
pub(crate) enum Direction {
    /// Calls that compare what was read.
    Reading,
    /// Calls that write.
    Writing,
}

impl Direction {
    /// Whether a set of that usage serves.
    fn serves(self, usage: Option<Usage>) -> bool
        ensures { result ≡ serves self usage }
    {
        match (self, usage) {
            (Direction::Reading, Some(Usage::Write)) => false,
            (Direction::Writing, Some(Usage::Read)) => false,
            _ => true,
        }
    }

    /// The call of an enumerated value of that name.
    fn name(self, alloc: Global, name: &Text) -> Result<Name, NoMemory>
        requires { 1 ≤ length name.now }
        ensures { IfOk result (λ made. made ≡ name_for self name.now) }
    {
        match self {
            Direction::Reading => is_call(alloc, name),
            Direction::Writing => variant_call(alloc, name),
        }
    }
}

/// The calls of the first set that serves, for a field of that many bits.
pub(crate) fn calls_of_sets(
    alloc: Global,
    direction: Direction,
    sets: &[Values],
    width: u32,
) -> Result<Calls, NoMemory>
    requires within { width ≤ 64 }
    requires named { SetsAreNamed sets.now }
    ensures { IfOk result (λ calls. calls ≡ set_calls_of (serves direction) (name_for direction) width (map plain_set sets.now)) }
{
    for set in sets {
        if direction.serves(set.usage) {
            return calls_of_values(alloc, direction, set.items.as_slice(), width);
        }
    }
    Ok(Seq::new(alloc))
}

/// The calls of the values of a set.
fn calls_of_values(
    alloc: Global,
    direction: Direction,
    values: &[Variant],
    width: u32,
) -> Result<Calls, NoMemory>
    requires within { width ≤ 64 }
    requires named { AreNamed values.now }
    ensures { IfOk result (λ calls. calls ≡ calls_of (name_for direction) width (map plain_value values.now)) }
{
    let mut taken = IndexSet::new(alloc);
    let mut calls = Seq::new(alloc);
    for value in values {
        push_call(alloc, direction, value, width, &mut taken, &mut calls)?;
    }
    Ok(calls)
}

/// Adds the call of a value that has one, unless its name is taken.
fn push_call(
    alloc: Global,
    direction: Direction,
    value: &Variant,
    width: u32,
    taken: &mut IndexSet<Name>,
    calls: &mut Calls,
) -> Result<(), NoMemory>
    requires within { width ≤ 64 }
    requires named { 1 ≤ length value.now.name }
    requires taken { taken.now.keys ≡ map call_name calls.now }
    ensures calls { OnOk result (calls.new ≡ with_call calls.old (call_of (name_for direction) width (plain_value value.now))) }
    ensures taken { OnOk result (taken.new.keys ≡ map call_name calls.new) }
{
    let Some(number) = value.value else {
        return Ok(());
    };
    if !is_below(number, width) {
        return Ok(());
    }
    let name = direction.name(alloc, &value.name)?;
    if !take(alloc, taken, &name)? {
        return Ok(());
    }
    calls.push(Call {
        name,
        value: number,
    })
}

/// Takes the name, and says whether it was free.
fn take(alloc: Global, taken: &mut IndexSet<Name>, name: &Name) -> Result<bool, NoMemory>
    ensures free { IfOk result (λ free. free ≡ not (list_any (bytes_eq name.now) taken.old.keys)) }
    ensures kept { IfOk result (λ free. taken.new.keys ≡ (if free then taken.old.keys ++ name.now ∷ [] else taken.old.keys)) }
{
    Ok(taken.insert(name.copy(alloc)?)?)
}

/// Whether the number has no more than so many bits.
fn is_below(number: u64, width: u32) -> bool
    requires { width ≤ 64 }
    ensures { result ≡ nat_lt number (2 ^ width) }
{
    width >= 64 || number < 1 << width
}
