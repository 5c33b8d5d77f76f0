ghost use Rattle.std.specs.Prelude.{◌≡◌, IfOk};
ghost use Rattle.std.specs.Str.{bytes_eq};
ghost use Rattle.frag_words.specs.Words.{words_in};
ghost use Rattle.frag_tree.specs.Numerals.{decimal_word, hexadecimal_word};
ghost use Rattle.frag_token.specs.Reading.{Gives, decimal_at, decimal_of, hexadecimal_at, hexadecimal_of};

use crate::fault::Stop;
use crate::token::{first_word, left_at};
use pac_base::NoMemory;
use std::alloc::Global;
use text_scan::{Radix, number, stripped};

/// Whether the word is the number as it is printed in hexadecimal.
fn is_hexadecimal(alloc: Global, number: u64, word: &[u8]) -> Result<bool, NoMemory>
    ensures { IfOk result (λ same. same ≡ bytes_eq word.now (hexadecimal_word number)) }
{
    let printed = format!(in alloc; "0x{number:x}")?;
    Ok(word == printed.as_bytes())
}

/// Whether the word is the number as it is printed in decimal.
fn is_decimal(alloc: Global, number: u64, word: &[u8]) -> Result<bool, NoMemory>
    ensures { IfOk result (λ same. same ≡ bytes_eq word.now (decimal_word number)) }
{
    let printed = format!(in alloc; "{number}")?;
    Ok(word == printed.as_bytes())
}

/// The number that the word is in hexadecimal: `0x` and lower-case digits without leading zeros.
/// `None` where it is no number below 2^64.
fn hexadecimal_of(alloc: Global, word: &[u8]) -> Result<Option<u64>, NoMemory>
    ensures { IfOk result (λ number. number ≡ hexadecimal_of word.now) }
{
    let Some(digits) = stripped(word, b"0x") else {
        return Ok(None);
    };
    let Some(number) = number(digits, Radix::Hexadecimal) else {
        return Ok(None);
    };
    if is_hexadecimal(alloc, number, word)? {
        Ok(Some(number))
    } else {
        Ok(None)
    }
}

/// The number that the word is in decimal, without leading zeros. `None` where it is no number below
/// 2^64.
fn decimal_of(alloc: Global, word: &[u8]) -> Result<Option<u64>, NoMemory>
    ensures { IfOk result (λ number. number ≡ decimal_of word.now) }
{
    let Some(number) = number(word, Radix::Decimal) else {
        return Ok(None);
    };
    if is_decimal(alloc, number, word)? {
        Ok(Some(number))
    } else {
        Ok(None)
    }
}

/// The hexadecimal number at the front of the text, and what follows it.
#[tactic(auto, unfolding(crate::specs::Reading::hexadecimal_at))]
pub fn hexadecimal(alloc: Global, text: &[u8]) -> Result<(u64, &[u8]), Stop>
    ensures { Gives (λ found. (found.0, words_in found.1.now)) result (hexadecimal_at (words_in text.now)) }
{
    let (word, rest) = first_word(text)?;
    match hexadecimal_of(alloc, word)? {
        Some(number) => Ok((number, rest)),
        None => Err(Stop::Unfit {
            left: left_at(text),
        }),
    }
}

/// The decimal number at the front of the text, and what follows it.
#[tactic(auto, unfolding(crate::specs::Reading::decimal_at))]
pub fn decimal(alloc: Global, text: &[u8]) -> Result<(u64, &[u8]), Stop>
    ensures { Gives (λ found. (found.0, words_in found.1.now)) result (decimal_at (words_in text.now)) }
{
    let (word, rest) = first_word(text)?;
    match decimal_of(alloc, word)? {
        Some(number) => Ok((number, rest)),
        None => Err(Stop::Unfit {
            left: left_at(text),
        }),
    }
}
