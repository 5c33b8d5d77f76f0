ghost use Rattle.std.specs.Prelude.{◌≡◌, ◌+◌, ◌<◌, ◌≤◌, ◌^◌, ◌&&◌, false};
ghost use Rattle.overlap_sweep.specs.Overlaps.{is_the_name};
ghost use Rattle.overlap_sweep.specs.Fields.{share_one};
ghost use Rattle.overlap_sweep.specs.Spots.{may_share, meets, parts, same_element, same_peripheral, some_alternate};

use crate::field::FieldPair;
use pac_base::{Name, Seq};

/// One step on the way to a member of a register.
#[derive(Drop)]
pub struct Way {
    /// The written name.
    pub name: Name,
    /// How many siblings before it have the same written name.
    pub number: u32,
    /// The index of the member, where the step goes into an array.
    pub index: Option<u64>,
    /// Whether it goes into a cluster that states `alternateCluster`.
    pub alternate: bool,
}

/// A member of a register: where it is, and with what it may share bytes.
#[derive(Drop)]
pub struct Spot {
    /// The steps from the device down to it.
    pub way: Seq<Way>,
    /// The written name of the register.
    pub name: Name,
    /// The address of its first byte.
    pub start: u64,
    /// How many bytes it takes.
    pub bytes: u64,
    /// The register that it states as `alternateRegister`.
    pub alternate: Option<Name>,
    /// Whether it states `alternateGroup`.
    pub grouped: bool,
    /// The first two members of its fields that share a bit and may not.
    pub shared: Option<FieldPair>,
}

impl Way {
    /// Whether both steps lead to one element of their parent.
    #[tactic(auto, unfolding(crate::specs::Spots::same_element))]
    fn is_element_of(&self, other: &Way) -> bool
        ensures { result ≡ same_element self.now other.now }
    {
        self.name == other.name && self.number == other.number
    }
}

/// Whether both ways lead into one peripheral.
#[tactic(auto, unfolding(crate::specs::Spots::same_peripheral))]
fn same_peripheral(one: &[Way], other: &[Way]) -> bool
    ensures { result ≡ same_peripheral one.now other.now }
{
    match one.split_first() {
        Some((first, _)) => match other.split_first() {
            Some((second, _)) => first.is_element_of(second),
            None => false,
        },
        None => false,
    }
}

/// Whether a step leads into a cluster that states `alternateCluster`.
#[tactic(auto, unfolding(crate::specs::Spots::some_alternate))]
fn some_alternate(way: &[Way]) -> bool
    ensures { result ≡ some_alternate way.now }
{
    way.iter().any(|step| step.alternate)
}

/// Whether the first way leads into a cluster that states `alternateCluster` and into which the other doesn't.
#[tactic(auto, unfolding(crate::specs::Spots::parts))]
fn parts(one: &[Way], other: &[Way]) -> bool
    ensures { result ≡ parts one.now other.now }
{
    match one.split_first() {
        Some((first, inner)) => match other.split_first() {
            Some((second, beside)) => {
                if first.is_element_of(second) {
                    parts(inner, beside)
                } else {
                    some_alternate(one)
                }
            }
            None => some_alternate(one),
        },
        None => false,
    }
}

/// Whether it is the name.
fn is_the_name(alternate: &Option<Name>, name: &Name) -> bool
    ensures { result ≡ is_the_name alternate.now name.now }
{
    match alternate {
        Some(other) => other == name,
        None => false,
    }
}

impl Spot {
    /// Whether both may share bytes.
    fn may_share(&self, other: &Spot) -> bool
        ensures { result ≡ may_share self.now other.now }
    {
        (self.grouped || other.grouped)
            || ((is_the_name(&self.alternate, &other.name)
                || is_the_name(&other.alternate, &self.name))
                || (parts(self.way.as_slice(), other.way.as_slice())
                    || parts(other.way.as_slice(), self.way.as_slice())))
    }

    /// Whether both share a byte.
    fn shares_byte(&self, other: &Spot) -> bool
        ensures { result ≡ share_one self.now.start self.now.bytes other.now.start other.now.bytes }
    {
        (self.start as u128) < other.start as u128 + other.bytes as u128
            && (other.start as u128) < self.start as u128 + self.bytes as u128
    }

    /// Whether both share a byte and may not.
    #[tactic(auto, unfolding(crate::specs::Spots::meets))]
    pub fn meets(&self, other: &Spot) -> bool
        ensures { result ≡ meets self.now other.now }
    {
        same_peripheral(self.way.as_slice(), other.way.as_slice())
            && (self.shares_byte(other) && !self.may_share(other))
    }
}
