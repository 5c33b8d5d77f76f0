ghost use Rattle.std.specs.Prelude.{◌≡◌, ◌-◌, ◌^◌, ◌≤◌};
ghost use Rattle.pac_base.specs.Widths.{bits_of};
ghost use Rattle.frag_sem.specs.Meaning.{negated, number_said};
ghost use Rattle.frag_sem.specs.PreludeWords.{as_bits, bit_of, ones, same_truth, shifted_up, start_word, taken, written};
ghost use Rattle.frag_eval.specs.Deeds.{all_put, cast_said, operand_number, operand_said, part_of, put_into, start_of, term_said, word_at};

use crate::deed::{Operand, Part, Put, Start, Term};
use frag_tree::Said;
use pac_base::Width;

/// The greatest word of a width.
fn greatest(width: Width) -> u64
    ensures { result ≡ 2 ^ bits_of width - 1 }
{
    match width {
        Width::W8 => u8::MAX as u64,
        Width::W16 => u16::MAX as u64,
        Width::W32 => u32::MAX as u64,
        Width::W64 => u64::MAX,
    }
}

/// A number cut to a width.
fn as_bits(width: Width, number: u64) -> u64
    ensures { result ≡ as_bits (bits_of width) number }
{
    number & greatest(width)
}

/// So many ones, 64 at most.
fn ones(bits: u32) -> u64
    ensures { bits ≤ 64 → result ≡ ones bits }
{
    if bits >= 64 {
        return u64::MAX;
    }
    (1 << bits) - 1
}

/// A word moved up, of which what leaves the width is lost.
fn shifted_up(width: Width, word: u64, offset: u32) -> u64
    ensures { result ≡ shifted_up (bits_of width) word offset }
{
    if offset >= 64 {
        return 0;
    }
    as_bits(width, word << offset)
}

/// The bits under a mask, behind a shift to the right.
#[tactic(auto, unfolding(frag_sem::specs::PreludeWords::taken))]
fn taken(word: u64, offset: u32, mask: u64) -> u64
    ensures { result ≡ taken word offset mask }
{
    if offset >= 64 {
        return 0;
    }
    (word >> offset) & mask
}

/// A word with a value's lowest bits at a place.
#[tactic(auto, unfolding(frag_sem::specs::PreludeWords::written))]
fn written(width: Width, word: u64, offset: u32, bits: u32, value: u64) -> u64
    requires { bits ≤ 64 }
    ensures { result ≡ written (bits_of width) word offset bits value }
{
    let mask = shifted_up(width, ones(bits), offset);
    let kept = word & greatest(width).saturating_sub(mask);
    kept | shifted_up(width, value & ones(bits), offset)
}

/// The word from which a write starts that is based on this word.
#[tactic(auto, unfolding(frag_sem::specs::PreludeWords::start_word))]
pub(crate) fn start_word(width: Width, base: u64, one: u64, zero: u64) -> u64
    ensures { result ≡ start_word (bits_of width) base one zero }
{
    (base & greatest(width).saturating_sub(one)) | zero
}

/// The word of this number, 0 where there is none.
fn word_at(words: &[u64], read: usize) -> u64
    ensures { result ≡ word_at words.now read }
{
    match words.get(read) {
        Some(&word) => word,
        None => 0,
    }
}

fn part_of(words: &[u64], part: &Part) -> u64
    ensures { result ≡ part_of words.now part.now }
{
    taken(word_at(words, part.read), part.offset, part.mask)
}

fn term_said(words: &[u64], term: &Term) -> Said
    ensures { result ≡ term_said words.now term.now }
{
    match term {
        Term::Number(value) => Said::Number(*value),
        Term::Truth(value) => Said::Truth(*value),
        Term::Word { read } => Said::Number(word_at(words, *read)),
        Term::Bit { part, value } => Said::Truth((part_of(words, part) != 0) == *value),
        Term::Bits { part, width } => Said::Number(as_bits(*width, part_of(words, part))),
        Term::Test { part, width, value } => {
            Said::Truth(as_bits(*width, part_of(words, part)) == *value)
        }
    }
}

/// A number or a truth as a number.
fn number_said(said: Said) -> u64
    ensures { result ≡ number_said said }
{
    match said {
        Said::Number(value) => value,
        Said::Truth(true) => 1,
        Said::Truth(false) => 0,
    }
}

fn cast_said(cast: Option<Width>, said: Said) -> Said
    ensures { result ≡ cast_said cast said }
{
    match cast {
        None => said,
        Some(width) => Said::Number(as_bits(width, number_said(said))),
    }
}

fn negated(negations: u32, said: Said) -> Said
    ensures { result ≡ negated negations said }
{
    match said {
        Said::Number(value) => Said::Number(value),
        Said::Truth(value) => Said::Truth((negations % 2 == 0) == value),
    }
}

/// What a value comes to.
#[tactic(auto, unfolding(crate::specs::Deeds::operand_said))]
pub(crate) fn operand_said(words: &[u64], operand: &Operand) -> Said
    ensures { result ≡ operand_said words.now operand.now }
{
    negated(
        operand.negations,
        cast_said(operand.cast, term_said(words, &operand.term)),
    )
}

fn put_into(width: Width, words: &[u64], word: u64, put: &Put) -> u64
    ensures { result ≡ put_into (bits_of width) words.now word put.now }
{
    match put {
        Put::Whole { value } => as_bits(width, number_said(operand_said(words, value))),
        Put::Part {
            offset,
            bits,
            value,
        } => written(
            width,
            word,
            *offset,
            (*bits).min(64),
            number_said(operand_said(words, value)),
        ),
    }
}

fn start_of(width: Width, words: &[u64], start: &Start) -> u64
    ensures { result ≡ start_of (bits_of width) words.now start.now }
{
    match start {
        Start::Word(word) => *word,
        Start::Based { read, one, zero } => start_word(width, word_at(words, *read), *one, *zero),
    }
}

/// The word that is written.
pub(crate) fn written_word(words: &[u64], width: Width, start: &Start, puts: &[Put]) -> u64
    ensures { result ≡ all_put (bits_of width) words.now (start_of (bits_of width) words.now start.now) puts.now }
{
    let mut word = start_of(width, words, start);
    for put in puts {
        word = put_into(width, words, word, put);
    }
    word
}
