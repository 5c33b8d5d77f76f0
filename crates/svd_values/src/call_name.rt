ghost use Rattle.std.specs.Prelude.{◌≡◌, ◌≢◌, [], ◌++◌, map, IfOk};
ghost use Rattle.std.specs.Str.{str_to_ascii_lowercase};
ghost use Rattle.pac_base.specs.Names.{IsName, is_word_byte};
ghost use Rattle.svd_values.specs.AccessorNames.{without_array_mark, digit_guard, guarded, taken_guard, is_taken_call, is_taken_slot, call_name, accessor_name, slot_name_of, plain_byte, plain_lower, variant_call_name, is_call_name, IsPlainName};

use pac_base::{Name, NameFault, NoMemory, Text};
use rust_names::{is_keyword, is_prelude_name};
use std::alloc::Global;

/// The accessor of a peripheral's, cluster's, register's or field's name: the name without `[%s]`,
/// in ASCII lower case, with `_` before a leading digit and `_` behind it where it is a keyword, a
/// name of the prelude or `_`, or begins with `_reserved`.
pub fn accessor(alloc: Global, name: &Name) -> Result<Name, NoMemory>
    ensures { IfOk result (λ made. made ≡ accessor_name name.now) }
{
    let lower = lower_case(alloc, without_array_mark(name.bytes()))?;
    call_name(alloc, lower.as_slice())
}

/// The slot of a peripheral: its written name, with `_` before a leading digit and `_` behind it
/// where it is a keyword, `Self` or `_`.
pub fn slot_name(alloc: Global, name: &Name) -> Result<Name, NoMemory>
    ensures { IfOk result (λ made. made ≡ slot_name_of name.now) }
{
    let mut slot = guarded(alloc, name.bytes())?;
    let taken = is_taken_slot(slot.as_slice());
    slot.extend_from_slice(taken_guard(taken))?;
    named(alloc, slot.as_slice())
}

/// The call that writes an enumerated value: its name with `_` for each byte that is no letter,
/// digit or `_`, named as an accessor is.
pub fn variant_call(alloc: Global, name: &Text) -> Result<Name, NoMemory>
    requires { name.now ≢ [] }
    ensures { IfOk result (λ made. made ≡ variant_call_name name.now) }
{
    let lower = plain_lower(alloc, name.as_str().as_bytes())?;
    call_name(alloc, lower.as_slice())
}

/// The call that tells whether an enumerated value was read: `is_` and its name in lower case, with
/// `_` for each byte that is no letter, digit or `_`.
pub fn is_call(alloc: Global, name: &Text) -> Result<Name, NoMemory>
    ensures { IfOk result (λ made. made ≡ is_call_name name.now) }
{
    let lower = plain_lower(alloc, name.as_str().as_bytes())?;
    let mut call = Vec::from_slice(alloc, b"is_")?;
    call.extend_from_slice(lower.as_slice())?;
    named(alloc, call.as_slice())
}

/// The name of these bytes, which are one.
pub(crate) fn named(alloc: Global, bytes: &[u8]) -> Result<Name, NoMemory>
    requires { IsName bytes.now }
    ensures { IfOk result (λ name. name ≡ bytes.now) }
{
    match Name::new(alloc, bytes) {
        Ok(name) => Ok(name),
        Err(NameFault::Memory) => Err(NoMemory),
        Err(NameFault::NotAName) => unreachable!(),
    }
}

fn call_name(alloc: Global, lower: &[u8]) -> Result<Name, NoMemory>
    requires { IsPlainName lower.now }
    ensures { IfOk result (λ name. name ≡ call_name lower.now) }
{
    let mut name = guarded(alloc, lower)?;
    let taken = is_taken_call(name.as_slice());
    name.extend_from_slice(taken_guard(taken))?;
    named(alloc, name.as_slice())
}

fn guarded(alloc: Global, name: &[u8]) -> Result<Vec<u8>, NoMemory>
    ensures { IfOk result (λ bytes. bytes.items ≡ guarded name.now) }
{
    let mut bytes = Vec::from_slice(alloc, digit_guard(name))?;
    bytes.extend_from_slice(name)?;
    Ok(bytes)
}

fn digit_guard(name: &[u8]) -> &'static [u8]
    ensures { result.now ≡ digit_guard name.now }
{
    match name {
        [first, ..] if first.is_ascii_digit() => b"_",
        _ => b"",
    }
}

fn taken_guard(taken: bool) -> &'static [u8]
    ensures { result.now ≡ taken_guard taken }
{
    if taken { b"_" } else { b"" }
}

fn is_taken_call(name: &[u8]) -> bool
    ensures { result ≡ is_taken_call name.now }
{
    is_keyword(name)
        || is_prelude_name(name)
        || name == b"_".as_slice()
        || name.starts_with(b"_reserved")
}

fn is_taken_slot(name: &[u8]) -> bool
    ensures { result ≡ is_taken_slot name.now }
{
    is_keyword(name) || name == b"_".as_slice()
}

fn without_array_mark(name: &[u8]) -> &[u8]
    ensures { result.now ≡ without_array_mark name.now }
{
    name.strip_suffix(b"[%s]").unwrap_or(name)
}

fn lower_case(alloc: Global, bytes: &[u8]) -> Result<Vec<u8>, NoMemory>
    ensures { IfOk result (λ lower. lower.items ≡ str_to_ascii_lowercase bytes.now) }
{
    Ok(
        bytes
            .iter()
            .map(|byte| byte.to_ascii_lowercase())
            .collect(alloc)?,
    )
}

/// Whether a byte is a letter, a digit or `_`.
pub(crate) fn is_word_byte(byte: u8) -> bool
    ensures { result ≡ is_word_byte byte }
{
    matches!(byte, b'A'..=b'Z' | b'a'..=b'z' | b'0'..=b'9' | b'_')
}

fn plain_byte(byte: u8) -> u8
    ensures { result ≡ plain_byte byte }
{
    if is_word_byte(byte) { byte } else { b'_' }
}

fn plain_lower(alloc: Global, text: &[u8]) -> Result<Vec<u8>, NoMemory>
    ensures { IfOk result (λ lower. lower.items ≡ plain_lower text.now) }
{
    let plain: Vec<u8> = text.iter().map(|byte| plain_byte(*byte)).collect(alloc)?;
    lower_case(alloc, plain.as_slice())
}
