ghost use Rattle.std.specs.Prelude.{◌≡◌, ◌↔◌, IsTrue};
ghost use Rattle.std.specs.List.{list_all};
ghost use Rattle.pac_base.specs.Names.{is_word_byte};
ghost use Rattle.rust_names.specs.Identifiers.{IsIdentifier, is_start};

use crate::keyword::is_keyword;

/// Whether the bytes are an identifier.
pub fn is_identifier(bytes: &[u8]) -> bool
    ensures { IsTrue result ↔ IsIdentifier bytes.now }
{
    match bytes {
        [first, rest @ ..] => {
            is_start(*first) && is_word(rest) && bytes != b"_".as_slice() && !is_keyword(bytes)
        }
        [] => false,
    }
}

/// Whether an identifier may begin with the byte.
fn is_start(byte: u8) -> bool
    ensures { result ≡ is_start byte }
{
    matches!(byte, b'A'..=b'Z' | b'a'..=b'z' | b'_')
}

/// Whether a byte is a letter, a digit or `_`.
fn is_word_byte(byte: u8) -> bool
    ensures { result ≡ is_word_byte byte }
{
    matches!(byte, b'A'..=b'Z' | b'a'..=b'z' | b'0'..=b'9' | b'_')
}

/// Whether all bytes are letters, digits or `_`.
fn is_word(bytes: &[u8]) -> bool
    ensures { result ≡ list_all is_word_byte bytes.now }
{
    bytes.iter().all(|byte| is_word_byte(*byte))
}
