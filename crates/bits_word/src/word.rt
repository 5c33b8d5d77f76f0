ghost use Rattle.std.specs.Prelude.{◌≡◌, ℕ, ◌+◌, ◌-◌, ◌%◌, ◌^◌, ◌≤◌, ◌<◌, refl};
ghost use Rattle.std.proofs.Common.{rules};
ghost use Rattle.bits_word.specs.Places.{get, mask, put};
ghost use Rattle.bits_word.specs.Start.{IsStart};

use crate::place;

/// A word of a register. A place in it is given by the number of its lowest bit, counted from 0, and by
/// how many bits it has: at least one, the last of them in the word.
pub trait Word: Copy {
    /// The number that the word stands for.
    ghost as_number: { Self → ℕ };

    ghost BITS: { ℕ };

    ghost MAX: { ℕ };

    /// How many bits the word has.
    const BITS: u32;

    /// The greatest word as a number: 2^BITS - 1.
    const MAX: u64;

    /// The word as a number.
    fn to_u64(self) -> u64
        ensures same { result ≡ as_number self }
        ensures below { result < 2 ^ BITS };

    /// The word of the lowest bits of a number: the number modulo 2^BITS.
    fn cut(number: u64) -> Self
        ensures { as_number result ≡ number % 2 ^ BITS };

    ghost bits_some: { 1 ≤ BITS };

    ghost bits_within: { BITS ≤ 64 };

    ghost greatest: { MAX ≡ 2 ^ BITS - 1 };

    /// What stands at the place: the word divided by 2^offset, modulo 2^width.
    final fn get(self, offset: u32, width: u32) -> Self
        requires some { 1 ≤ width }
        requires within { offset + width ≤ BITS }
        ensures { as_number result ≡ get (as_number self) offset width }
    {
        Self::cut(place::get(self.to_u64(), offset, width))
    }

    /// The word with the value's lowest `width` bits at the place, and its other bits as before.
    final fn put(self, offset: u32, width: u32, value: Self) -> Self
        requires some { 1 ≤ width }
        requires within { offset + width ≤ BITS }
        ensures { as_number result ≡ put (as_number self) offset width (as_number value) }
    {
        Self::cut(place::put(self.to_u64(), offset, width, value.to_u64()))
    }

    /// The word that has just the place's bits set.
    final fn mask(offset: u32, width: u32) -> Self
        requires some { 1 ≤ width }
        requires within { offset + width ≤ BITS }
        ensures { as_number result ≡ mask offset width }
    {
        Self::cut(place::mask(offset, width))
    }

    /// The word from which a write starts: a bit is 1 where `zero` has it, else 0 where `one` has it, else
    /// as it is. Bits that are cleared by writing 1 are so written as 0, and those cleared by writing 0
    /// as 1 (the API that svd2rust documents).
    final fn start(self, one: Self, zero: Self) -> Self
        ensures { IsStart BITS (as_number self) (as_number one) (as_number zero) (as_number result) }
    {
        Self::cut(place::start(self.to_u64(), one.to_u64(), zero.to_u64()))
    }
}

impl Word for u8 {
    ghost as_number = { λ word. word };

    ghost BITS = { 8 };

    ghost MAX = { 2 ^ 8 - 1 };

    const BITS: u32 = u8::BITS;

    const MAX: u64 = u8::MAX as u64;

    ghost bits_some = { Prim.search rules };

    ghost bits_within = { Prim.search rules };

    ghost greatest = { refl };

    fn to_u64(self) -> u64 {
        u64::from(self)
    }

    fn cut(number: u64) -> u8 {
        (number & u8::MAX as u64) as u8
    }
}

impl Word for u16 {
    ghost as_number = { λ word. word };

    ghost BITS = { 16 };

    ghost MAX = { 2 ^ 16 - 1 };

    const BITS: u32 = u16::BITS;

    const MAX: u64 = u16::MAX as u64;

    ghost bits_some = { Prim.search rules };

    ghost bits_within = { Prim.search rules };

    ghost greatest = { refl };

    fn to_u64(self) -> u64 {
        u64::from(self)
    }

    fn cut(number: u64) -> u16 {
        (number & u16::MAX as u64) as u16
    }
}

impl Word for u32 {
    ghost as_number = { λ word. word };

    ghost BITS = { 32 };

    ghost MAX = { 2 ^ 32 - 1 };

    const BITS: u32 = u32::BITS;

    const MAX: u64 = u32::MAX as u64;

    ghost bits_some = { Prim.search rules };

    ghost bits_within = { Prim.search rules };

    ghost greatest = { refl };

    fn to_u64(self) -> u64 {
        u64::from(self)
    }

    fn cut(number: u64) -> u32 {
        (number & u32::MAX as u64) as u32
    }
}

impl Word for u64 {
    ghost as_number = { λ word. word };

    ghost BITS = { 64 };

    ghost MAX = { 2 ^ 64 - 1 };

    const BITS: u32 = u64::BITS;

    const MAX: u64 = u64::MAX as u64;

    ghost bits_some = { Prim.search rules };

    ghost bits_within = { Prim.search rules };

    ghost greatest = { refl };

    fn to_u64(self) -> u64 {
        self
    }

    fn cut(number: u64) -> u64 {
        number
    }
}
