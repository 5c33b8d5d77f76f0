ghost use Rattle.std.specs.Prelude.{◌≡◌, ◌↔◌, List, ℕ, Some, option_map};
ghost use Rattle.yaml_block.specs.declared.quoted.Quote.{Quote as QuoteMark};
ghost use Rattle.yaml_block.specs.Quoting.{IsQuoted};
ghost use Rattle.yaml_block.specs.Reading.{Gives};
ghost use Rattle.yaml_block.specs.Scalars.{byte_at, bytes_at, closes, escape_at, escaped, mark_of, quoted_at};

use crate::refusal::Refusal;
use crate::scalar::made_text;
use crate::space::starts;
use pac_base::Text;
use std::alloc::Global;
use text_scan::stripped;

/// The quotes round a scalar.
#[derive(Clone, Copy)]
pub enum Quote {
    Single,
    Double,
}

#[tactic(auto, unfolding(crate::specs::Scalars::mark_of))]
fn mark_of(quote: Quote) -> &'static [u8]
    ensures { result.now ≡ mark_of quote }
{
    match quote {
        Quote::Single => b"'",
        Quote::Double => b"\"",
    }
}

/// Whether the quotes close before the text.
#[tactic(auto, unfolding(crate::specs::Scalars::closes))]
fn closes(quote: Quote, text: &[u8]) -> bool
    ensures { result ≡ closes quote text.now }
{
    match text {
        [] => false,
        [first, after @ ..] => match quote {
            Quote::Single => *first == b'\'' && !starts(after, b'\''),
            Quote::Double => *first == b'"',
        },
    }
}

/// What a byte behind a backslash stands for.
#[tactic(auto, unfolding(crate::specs::Scalars::escaped))]
fn escaped(byte: u8) -> Option<u8>
    ensures { result ≡ escaped byte }
{
    match byte {
        b'\\' => Some(b'\\'),
        b'"' => Some(b'"'),
        b'n' => Some(b'\n'),
        b't' => Some(b'\t'),
        _ => None,
    }
}

#[tactic(auto, unfolding(crate::specs::Scalars::escape_at))]
fn escape(text: &[u8]) -> Option<(u8, &[u8])>
    ensures { option_map (λ x. (x.0, x.1.now)) result ≡ escape_at text.now }
{
    match text {
        [] => None,
        [first, after @ ..] => {
            let meant = escaped(*first)?;
            Some((meant, after))
        }
    }
}

/// What the byte at the front stands for within the quotes, and what follows it.
#[tactic(auto, unfolding(crate::specs::Scalars::byte_at))]
fn byte(quote: Quote, text: &[u8]) -> Option<(u8, &[u8])>
    ensures { option_map (λ x. (x.0, x.1.now)) result ≡ byte_at quote text.now }
{
    let (first, after) = text.split_first()?;
    match quote {
        Quote::Single if *first == b'\'' => Some((b'\'', stripped(after, b"'")?)),
        Quote::Double if *first == b'"' => None,
        Quote::Double if *first == b'\\' => escape(after),
        _ => Some((*first, after)),
    }
}

fn next_byte(quote: Quote, text: &[u8]) -> Result<(u8, &[u8]), Refusal>
    ensures { Gives (λ x. (x.0, x.1.now)) result (byte_at quote text.now) }
{
    byte(quote, text).ok_or(Refusal::NotInForm)
}

/// What stands for bytes up to the closing quote, and what follows from there on.
fn bytes(alloc: Global, quote: Quote, text: &[u8]) -> Result<(Vec<u8>, &[u8]), Refusal>
    ensures { Gives (λ x. (x.0.items, x.1.now)) result (bytes_at quote text.now) }
{
    let mut bytes = Vec::new(alloc);
    let mut rest = text;
    'bytes: while !closes(quote, rest) {
        let (next, after) = next_byte(quote, rest)?;
        bytes.push(next)?;
        rest = after;
    }
    Ok((bytes, rest))
}

/// The scalar whose opening quote stood before the text, and what follows it.
#[tactic(auto, unfolding(crate::specs::Scalars::quoted_at))]
pub fn quoted_text(alloc: Global, quote: Quote, text: &[u8]) -> Result<(Text, &[u8]), Refusal>
    ensures { Gives (λ x. (x.0, x.1.now)) result (quoted_at quote text.now) }
{
    let (bytes, rest) = bytes(alloc, quote, text)?;
    let rest = stripped(rest, mark_of(quote)).ok_or(Refusal::NotInForm)?;
    let spelled = made_text(alloc, &bytes)?;
    Ok((spelled, rest))
}

/// What is read within quotes is what is spelled there: in single quotes each byte as itself, but the
/// quote twice; in double quotes each byte as itself, or by one of the escapes `\\`, `\"`, `\n` and
/// `\t`.
pub fn quotes_as_spelled()
    ensures { (quote : QuoteMark) (bytes text rest : List ℕ) → (quoted_at quote text ≡ Some (bytes, rest)) ↔ IsQuoted quote bytes text rest }
{}
