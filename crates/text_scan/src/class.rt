ghost use Rattle.std.specs.Prelude.{◌≡◌};
ghost use Rattle.text_scan.specs.Classes.{has, is_between, is_blank, is_hex_digit, is_name_byte};

/// A class of bytes.
#[derive(Clone, Copy, Debug, PartialEq, Eq)]
pub enum Class {
    /// Space, tab, carriage return and line feed: the white space of XML.
    Blank,
    /// `0` to `9`.
    Digit,
    /// `0` to `9`, `A` to `F` and `a` to `f`.
    HexDigit,
    /// `A` to `Z`.
    Upper,
    /// `A` to `Z`, `0` to `9` and `_`: what a name has after its first letter.
    NameByte,
    /// Every byte but `<`: what may stand between two tags.
    Content,
}

impl Class {
    /// Whether the byte is of this class.
    #[tactic(auto, unfolding(crate::specs::Classes::has))]
    pub fn has(self, byte: u8) -> bool
        ensures { result ≡ has self byte }
    {
        match self {
            Class::Blank => is_blank(byte),
            Class::Digit => is_between(b'0', b'9', byte),
            Class::HexDigit => is_hex_digit(byte),
            Class::Upper => is_between(b'A', b'Z', byte),
            Class::NameByte => is_name_byte(byte),
            Class::Content => byte != b'<',
        }
    }
}

fn is_between(low: u8, high: u8, byte: u8) -> bool
    ensures { result ≡ is_between low high byte }
{
    low <= byte && byte <= high
}

fn is_blank(byte: u8) -> bool
    ensures { result ≡ is_blank byte }
{
    byte == b' ' || byte == b'\t' || byte == b'\r' || byte == b'\n'
}

fn is_hex_digit(byte: u8) -> bool
    ensures { result ≡ is_hex_digit byte }
{
    is_between(b'0', b'9', byte) || is_between(b'A', b'F', byte) || is_between(b'a', b'f', byte)
}

fn is_name_byte(byte: u8) -> bool
    ensures { result ≡ is_name_byte byte }
{
    is_between(b'A', b'Z', byte) || is_between(b'0', b'9', byte) || byte == b'_'
}
