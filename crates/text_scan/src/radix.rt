ghost use Rattle.std.specs.Prelude.{◌≡◌};
ghost use Rattle.text_scan.specs.Numbers.{base_of, digits_of, digit_value, number_of};
ghost use Rattle.text_scan.specs.Reading.{extended_by, reads_on};

use crate::class::Class;

/// The base in which digits are read.
#[derive(Clone, Copy, Debug, PartialEq, Eq)]
pub enum Radix {
    Decimal,
    Hexadecimal,
}

impl Radix {
    fn base(self) -> u64
        ensures { result ≡ base_of self }
    {
        match self {
            Radix::Decimal => 10,
            Radix::Hexadecimal => 16,
        }
    }

    fn digits(self) -> Class
        ensures { result ≡ digits_of self }
    {
        match self {
            Radix::Decimal => Class::Digit,
            Radix::Hexadecimal => Class::HexDigit,
        }
    }

    /// The number with one digit more at its end, where that is a digit and the number below 2^64.
    #[tactic(auto, using(std::proofs::lemmas::Bool::Decides::nat_tests), unfolding(crate::specs::Reading::extended_by))]
    fn extended(self, value: u64, digit: u8) -> Option<u64>
        ensures { result ≡ extended_by self value digit }
    {
        if !self.digits().has(digit) {
            return None;
        }
        value
            .checked_mul(self.base())?
            .checked_add(digit_value(digit))
    }
}

/// What a digit is worth.
#[tactic(auto, unfolding(crate::specs::Numbers::digit_value))]
fn digit_value(digit: u8) -> u64
    ensures { result ≡ digit_value digit }
{
    if digit <= b'9' {
        return u64::from(digit.saturating_sub(b'0'));
    }
    if digit <= b'F' {
        return u64::from(digit.saturating_sub(b'7'));
    }
    u64::from(digit.saturating_sub(b'W'))
}

/// The number that the digits make from the first on.
#[tactic(auto, unfolding(crate::specs::Reading::reads_on))]
fn read_on(digits: &[u8], radix: Radix) -> Option<u64>
    ensures { result ≡ reads_on radix 0 digits.now }
{
    let mut value = 0;
    let mut rest = digits;
    while let [first, after @ ..] = rest {
        value = radix.extended(value, *first)?;
        rest = after;
    }
    Some(value)
}

/// The number that the digits stand for. `None` where there is no digit, where a byte is no digit
/// of the radix, and where the number is not below 2^64.
pub fn number(digits: &[u8], radix: Radix) -> Option<u64>
    ensures { result ≡ number_of radix digits.now }
{
    if digits.is_empty() {
        return None;
    }
    read_on(digits, radix)
}
