ghost use Rattle.std.specs.Prelude.{◌≡◌, option_map};
ghost use Rattle.xml_text.specs.References.{scalar_of};
ghost use Rattle.xml_text.specs.Reading.{named_in, scalar_in, reference_at};

use crate::run::{Run, split_run};
use text_scan::{Radix, number, stripped};

/// The character of the number, where that is a Unicode scalar value.
#[tactic(auto, unfolding(crate::specs::References::scalar_of))]
fn scalar_of(number: u64) -> Option<char>
    ensures { result ≡ scalar_of number }
{
    match u32::try_from(number) {
        Ok(code) => char::from_u32(code),
        Err(_) => None,
    }
}

/// The character that the name stands for.
#[tactic(auto, unfolding(crate::specs::Reading::named_in))]
fn named_in(name: &[u8]) -> Option<char>
    ensures { result ≡ named_in name.now }
{
    if name == b"amp".as_slice() {
        return Some('&');
    }
    if name == b"lt".as_slice() {
        return Some('<');
    }
    if name == b"gt".as_slice() {
        return Some('>');
    }
    if name == b"quot".as_slice() {
        return Some('"');
    }
    if name == b"apos".as_slice() {
        return Some('\'');
    }
    None
}

/// The character that a reference with this between `&` and `;` stands for.
#[tactic(auto, unfolding(crate::specs::Reading::scalar_in))]
fn scalar_in(body: &[u8]) -> Option<char>
    ensures { result ≡ scalar_in body.now }
{
    if let Some(digits) = stripped(body, b"#x") {
        return scalar_of(number(digits, Radix::Hexadecimal)?);
    }
    if let Some(digits) = stripped(body, b"#") {
        return scalar_of(number(digits, Radix::Decimal)?);
    }
    named_in(body)
}

/// The character that the reference at the front of the text stands for, and what follows it.
#[tactic(auto, unfolding(crate::specs::Reading::reference_at))]
pub fn split_reference(text: &[u8]) -> Option<(char, &[u8])>
    ensures { option_map (λ x. (x.0, x.1.now)) result ≡ reference_at text.now }
{
    let (body, behind) = split_run(stripped(text, b"&")?, Run::Reference);
    let rest = stripped(behind, b";")?;
    let scalar = scalar_in(body)?;
    Some((scalar, rest))
}
