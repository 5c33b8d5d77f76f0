ghost use Rattle.std.specs.Prelude.{◌≡◌};
ghost use Rattle.overlap_check.specs.Walks.{fails_group, fails_register, is_uneven, is_within, last_end, fails_field};

use crate::place::{Place, width_of};
use svd_model::Field;

/// What elements have to keep.
#[derive(Clone, Copy)]
pub enum Rule {
    /// A register has 1 to 64 bits.
    Width,
    /// Addresses have 64 bits.
    Range,
    /// The address of a register is a multiple of its width.
    Alignment,
    /// Each member of a field lies within its register.
    Fields,
}

impl Rule {
    /// Whether a peripheral or cluster of this place breaks the rule.
    pub fn fails_group(self, place: &Place) -> bool
        ensures { result ≡ fails_group self place.now }
    {
        match self {
            Rule::Range => (1 << 64) <= place.last,
            Rule::Width | Rule::Alignment | Rule::Fields => false,
        }
    }

    /// Whether a register of this place breaks it.
    pub fn fails_register(self, place: &Place) -> bool
        ensures { result ≡ fails_register self place.now }
    {
        match self {
            Rule::Width => !(1 <= place.size && place.size <= 64),
            Rule::Range => is_past(place),
            Rule::Alignment => is_uneven(place),
            Rule::Fields => false,
        }
    }

    /// Whether a field of a register of this place breaks it.
    pub fn fails_field(self, place: &Place, field: &Field) -> bool
        ensures { result ≡ fails_field self place.now.size field.now.dim.count field.now.dim.step field.now.place }
    {
        match self {
            Rule::Fields => !is_within(place, field),
            Rule::Width | Rule::Range | Rule::Alignment => false,
        }
    }
}

/// Whether a register of this place ends past the addresses of 64 bits.
fn is_past(place: &Place) -> bool
    ensures { result ≡ Rattle.overlap_check.specs.Walks.register_past place.now }
{
    let bytes = width_of(place.size).bytes() as u128;
    (1 << 64) < place.last.saturating_add(bytes)
}

/// Whether the address of a register of this place is no multiple of its width.
fn is_uneven(place: &Place) -> bool
    ensures { result ≡ is_uneven place.now }
{
    let bytes = width_of(place.size).bytes();
    place.first % bytes != 0 || place.stride < bytes
}

/// Where the last member of the field ends, in bits, or the greatest number of 128 bits where it is above that.
fn last_end(field: &Field) -> u128
    ensures { result ≡ last_end field.now.dim.count field.now.dim.step field.now.place }
{
    let offset = field.place.offset.unwrap_or(0);
    let width = field.place.width.unwrap_or(1);
    let others = field.dim.count.unwrap_or(1).saturating_sub(1);
    let step = field.dim.step.unwrap_or(0);
    offset
        .saturating_add(width)
        .saturating_add(others as u128 * step as u128)
}

/// Whether each member of the field lies within a register of this place: no other ends behind the last.
fn is_within(place: &Place, field: &Field) -> bool
    ensures { result ≡ is_within place.now.size field.now.dim.count field.now.dim.step field.now.place }
{
    let bits = width_of(place.size).bits() as u128;
    1 <= field.place.width.unwrap_or(1) && last_end(field) <= bits
}
