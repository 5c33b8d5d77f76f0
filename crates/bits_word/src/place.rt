ghost use Rattle.std.specs.Prelude.{◌≡◌, ℕ, ◌+◌, ◌-◌, ◌^◌, ◌≤◌, ◌<◌};
ghost use Rattle.bits_word.specs.Places.{get, mask, put};
ghost use Rattle.bits_word.specs.Start.{IsStart};

/// The number whose lowest `width` bits are ones.
fn ones(width: u32) -> u64
    requires some { 1 ≤ width }
    requires within { width ≤ 64 }
    ensures { result ≡ 2 ^ width - 1 }
{
    u64::MAX >> (64 - width)
}

pub fn mask(offset: u32, width: u32) -> u64
    requires some { 1 ≤ width }
    requires within { offset + width ≤ 64 }
    ensures { result ≡ mask offset width }
{
    ones(width) << offset
}

pub fn get(word: u64, offset: u32, width: u32) -> u64
    requires some { 1 ≤ width }
    requires within { offset + width ≤ 64 }
    ensures { result ≡ get word offset width }
{
    (word >> offset) & ones(width)
}

pub fn put(word: u64, offset: u32, width: u32, value: u64) -> u64
    requires some { 1 ≤ width }
    requires within { offset + width ≤ 64 }
    ensures value { result ≡ put word offset width value }
    ensures below { (bits : ℕ) → word < 2 ^ bits → offset + width ≤ bits → result < 2 ^ bits }
{
    let others = word & !mask(offset, width);
    let placed = (value & ones(width)) << offset;
    others | placed
}

pub fn start(word: u64, one: u64, zero: u64) -> u64
    ensures bits { IsStart 64 word one zero result }
    ensures below { (bits : ℕ) → word < 2 ^ bits → zero < 2 ^ bits → result < 2 ^ bits }
{
    (word & !one) | zero
}
