ghost use Rattle.std.specs.Prelude.{ℕ, ◌≡◌, ◌+◌, ◌++◌, IfOk, OnOk, map};
ghost use Rattle.std.specs.List.{flat_map};
ghost use Rattle.frag_words.specs.Lines.{Line, fixed, line, line_text, lines_text, piece_text};
ghost use Rattle.frag_tree.specs.Parts.{piece_of, spaces};
ghost use Rattle.frag_tree.specs.Phrases.{text_of};
ghost use Rattle.frag_tree.specs.Numerals.{hexadecimal_word};

use crate::identifier::Identifier;
use crate::phrase::Phrase;
use crate::register::BitKind;
use crate::word::{kind_word, truth_word, width_word};
use pac_base::{NoMemory, Width};
use pac_io::Page;

/// A part of a line.
#[derive(Clone, Copy)]
pub(crate) enum Part<'a> {
    /// A fixed text.
    Text(Phrase),
    /// A name.
    Name(&'a Identifier),
    /// A number, `0x` and lower-case digits.
    Hexadecimal(u64),
    /// A number in decimal.
    Decimal(u64),
    /// The type of a number of this width.
    Width(Width),
    /// A truth.
    Truth(bool),
    /// The writer of a bit of this kind.
    Kind(BitKind),
}

/// What is printed on a line of its own.
pub(crate) trait OneLine {
    // The line, at a depth.
    ghost line_at: { ℕ → Self → Line };

    /// Appends the line.
    fn push_onto(&self, page: &mut Page, depth: usize) -> Result<(), NoMemory>
        ensures { OnOk result (page.new ≡ page.old ++ line_text (line_at depth self.now)) };
}

/// Appends the line of each item, in order.
pub(crate) fn push_each<T: OneLine>(
    page: &mut Page,
    depth: usize,
    items: &[T],
) -> Result<(), NoMemory>
    ensures { OnOk result (page.new ≡ page.old ++ lines_text (map (T.line_at depth) items.now)) }
{
    for item in items {
        item.push_onto(page, depth)?;
    }
    Ok(())
}

/// Appends a line.
#[tactic(auto, unfolding(frag_words::specs::Lines::line_text))]
pub(crate) fn push_line(page: &mut Page, depth: usize, parts: &[Part]) -> Result<(), NoMemory>
    ensures { OnOk result (page.new ≡ page.old ++ line_text (line depth (map piece_of parts.now))) }
{
    push_indent(page, depth)?;
    push_parts(page, parts)?;
    page.push(b"\n")
}

/// Appends a line of one fixed text.
pub(crate) fn push_fixed(page: &mut Page, depth: usize, phrase: Phrase) -> Result<(), NoMemory>
    ensures { OnOk result (page.new ≡ page.old ++ line_text (fixed depth (text_of phrase))) }
{
    push_line(page, depth, &[Part::Text(phrase)])
}

/// The depth within one more brace. Where there is no such number, memory could not hold the spaces.
pub(crate) fn deeper(depth: usize) -> Result<usize, NoMemory>
    ensures { IfOk result (λ inner. inner ≡ depth + 1) }
{
    depth.checked_add(1).ok_or(NoMemory)
}

// The spaces of sixteen open braces.
const SPACES: [u8; 64] = [b' '; 64];

/// Appends four spaces for each open brace.
pub(crate) fn push_indent(page: &mut Page, depth: usize) -> Result<(), NoMemory>
    ensures { OnOk result (page.new ≡ page.old ++ spaces depth) }
{
    if depth > 16 {
        return push_deep_indent(page, depth);
    }
    page.push(&SPACES[..4 * depth])
}

// The same where more braces are open.
fn push_deep_indent(page: &mut Page, depth: usize) -> Result<(), NoMemory>
    ensures { OnOk result (page.new ≡ page.old ++ spaces depth) }
{
    for level in 0..depth {
        page.push(b"    ")?;
    }
    Ok(())
}

/// Appends the parts of a line, in order.
pub(crate) fn push_parts(page: &mut Page, parts: &[Part]) -> Result<(), NoMemory>
    ensures { OnOk result (page.new ≡ page.old ++ flat_map piece_text (map piece_of parts.now)) }
{
    for part in parts {
        push_part(page, *part)?;
    }
    Ok(())
}

fn push_part(page: &mut Page, part: Part) -> Result<(), NoMemory>
    ensures { OnOk result (page.new ≡ page.old ++ piece_text (piece_of part.entry)) }
{
    match part {
        Part::Text(phrase) => page.push(phrase.text()),
        Part::Name(name) => page.push(name.bytes()),
        Part::Hexadecimal(number) => push_hexadecimal(page, number),
        Part::Decimal(number) => page.decimal(number),
        Part::Width(width) => page.push(width_word(width)),
        Part::Truth(truth) => page.push(truth_word(truth)),
        Part::Kind(kind) => page.push(kind_word(kind)),
    }
}

fn push_hexadecimal(page: &mut Page, number: u64) -> Result<(), NoMemory>
    ensures { OnOk result (page.new ≡ page.old ++ hexadecimal_word number) }
{
    page.push(b"0x")?;
    page.hexadecimal(number, 0)
}
