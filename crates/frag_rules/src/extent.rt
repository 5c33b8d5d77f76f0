ghost use Rattle.std.specs.Prelude.{◌≡◌, ◌+◌, ◌*◌, ◌/◌, max, Option};
ghost use Rattle.std.specs.Int.{next_multiple_of};
ghost use Rattle.pac_base.specs.Widths.{bits_of};
ghost use Rattle.frag_sem.specs.AddressEnds.{cut, greater};

use pac_base::Width;

/// What something takes in memory, in bytes. A size behind 2^64 counts as the next number; an alignment is that of
/// a word.
#[derive(Clone, Copy)]
pub struct Room {
    pub size: u128,
    pub align: Width,
}

/// A number of bytes, where all behind 2^64 count as the next one.
pub(crate) fn cut(bytes: u128) -> u128
    ensures { result ≡ cut bytes }
{
    bytes.min(0x1_0000_0000_0000_0001)
}

/// The sum of two numbers of bytes, cut.
pub(crate) fn plus(one: u128, other: u128) -> u128
    ensures { result ≡ cut (one + other) }
{
    cut(one.saturating_add(other))
}

/// So many times a number of bytes, cut.
pub(crate) fn times(count: u64, bytes: u128) -> u128
    ensures { result ≡ cut (count * bytes) }
{
    cut(u128::from(count).saturating_mul(bytes))
}

/// How far the next multiple of an alignment lies behind a place.
fn padding(place: u128, align: Width) -> u128
    ensures { place + result ≡ next_multiple_of place (bits_of align / 8) }
{
    match align {
        Width::W8 => (1 - place % 1) % 1,
        Width::W16 => (2 - place % 2) % 2,
        Width::W32 => (4 - place % 4) % 4,
        Width::W64 => (8 - place % 8) % 8,
    }
}

/// The next multiple of an alignment, cut.
pub(crate) fn round_up(end: u128, align: Width) -> u128
    ensures { result ≡ cut (next_multiple_of (cut end) (bits_of align / 8)) }
{
    let place = cut(end);
    plus(place, padding(place, align))
}

/// The wider of two alignments.
pub(crate) fn wider(one: Width, other: Width) -> Width
    ensures { bits_of result / 8 ≡ max (bits_of one / 8) (bits_of other / 8) }
{
    match (one, other) {
        (Width::W8, other) => other,
        (one, Width::W8) => one,
        (Width::W16, other) => other,
        (one, Width::W16) => one,
        (Width::W32, other) => other,
        (one, Width::W32) => one,
        (Width::W64, Width::W64) => Width::W64,
    }
}

/// The later of two ends.
pub(crate) fn later(one: Option<u128>, other: Option<u128>) -> Option<u128>
    ensures { result ≡ greater one other }
{
    match (one, other) {
        (None, other) => other,
        (Some(one), None) => Some(one),
        (Some(one), Some(other)) => Some(one.max(other)),
    }
}
