ghost use Rattle.std.specs.Prelude.{◌≡◌, ◌≤◌, ◌<◌, ◌*◌, ◌⊎◌, MatchOption, IfSome};
ghost use Rattle.pac_base.specs.Widths.{bits_of, IsLeastWidth};

/// How wide an access to a register is.
#[derive(Clone, Copy, Debug, PartialEq, Eq)]
pub enum Width {
    /// 8 bits, one byte.
    W8,
    /// 16 bits, two bytes.
    W16,
    /// 32 bits, four bytes.
    W32,
    /// 64 bits, eight bytes.
    W64,
}

impl Width {
    /// The width of a register that states `size` bits: the least of the four that holds them.
    /// `None` where no register has that size: 0, and above 64.
    pub fn from_size(size: u64) -> Option<Width>
        ensures none { MatchOption result ((size ≡ 0) ⊎ (64 < size)) (λ _. (0 < size) × (size ≤ 64)) }
        ensures least { IfSome result (IsLeastWidth size) }
    {
        match size {
            1..=8 => Some(Width::W8),
            9..=16 => Some(Width::W16),
            17..=32 => Some(Width::W32),
            33..=64 => Some(Width::W64),
            _ => None,
        }
    }

    /// The width in bits.
    pub fn bits(self) -> u32
        ensures { result ≡ bits_of self }
    {
        match self {
            Width::W8 => 8,
            Width::W16 => 16,
            Width::W32 => 32,
            Width::W64 => 64,
        }
    }

    /// The width in bytes.
    pub fn bytes(self) -> u64
        ensures { 8 * result ≡ bits_of self }
    {
        match self {
            Width::W8 => 1,
            Width::W16 => 2,
            Width::W32 => 4,
            Width::W64 => 8,
        }
    }
}
