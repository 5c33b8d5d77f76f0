ghost use Rattle.std.specs.Prelude.{◌≡◌, IfOk, not};
ghost use Rattle.std.specs.List.{filter};
ghost use Rattle.frag_script.specs.Tokens.{grouped_number, is_grouped, is_underscore, number_in};

use pac_base::NoMemory;
use std::alloc::Global;
use text_scan::{Radix, stripped};

/// Whether `_` stands between bytes alone: the groups that it parts have at least one byte each.
#[tactic(auto, unfolding(crate::specs::Groups::grouped_on))]
fn is_grouped(text: &[u8]) -> bool
    ensures { result ≡ is_grouped text.now }
{
    let mut rest = text;
    let mut is_begun = false;
    while let [first, after @ ..] = rest {
        if *first != b'_' {
            is_begun = true;
        } else if is_begun {
            is_begun = false;
        } else {
            return false;
        }
        rest = after;
    }
    is_begun
}

/// The text without `_`.
fn without_underscores(alloc: Global, text: &[u8]) -> Result<Vec<u8>, NoMemory>
    ensures { IfOk result (λ digits. digits.items ≡ filter (λ byte. not (is_underscore byte)) text.now) }
{
    let mut digits = Vec::new(alloc);
    for byte in text {
        if *byte != b'_' {
            digits.push(*byte)?;
        }
    }
    Ok(digits)
}

/// The number below 2^64 that digits stand for, with `_` between them.
#[tactic(auto, unfolding(crate::specs::Tokens::grouped_number))]
fn grouped_number(alloc: Global, text: &[u8], radix: Radix) -> Result<Option<u64>, NoMemory>
    ensures { IfOk result (λ number. number ≡ grouped_number radix text.now) }
{
    if !is_grouped(text) {
        return Ok(None);
    }
    let digits = without_underscores(alloc, text)?;
    Ok(text_scan::number(digits.as_slice(), radix))
}

/// The number that a word stands for: decimal digits, or `0x` and hexadecimal digits of either case,
/// with `_` between digits. `None` where it stands for no number below 2^64.
#[tactic(auto, unfolding(crate::specs::Tokens::number_in))]
pub(crate) fn number_in(alloc: Global, word: &[u8]) -> Result<Option<u64>, NoMemory>
    ensures { IfOk result (λ number. number ≡ number_in word.now) }
{
    match stripped(word, b"0x") {
        Some(digits) => grouped_number(alloc, digits, Radix::Hexadecimal),
        None => grouped_number(alloc, word, Radix::Decimal),
    }
}
