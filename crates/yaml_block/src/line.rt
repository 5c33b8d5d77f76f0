ghost use Rattle.std.specs.Prelude.{◌≡◌};
ghost use Rattle.yaml_block.specs.Reading.{Gives};
ghost use Rattle.yaml_block.specs.Lines.{is_mark, is_skipped, line_at, said_at};
ghost use Rattle.std.specs.Str.{is_utf8};

use crate::content::{Content, content_of};
use crate::refusal::Refusal;
use crate::space::{after_spaces, ends, starts};
use std::alloc::Global;
use std::str;
use text_scan::stripped;

/// A line that says something.
#[derive(Debug, Drop)]
pub struct Line {
    /// Its number, counted from 1.
    pub number: u32,
    /// How many spaces stand at its front.
    pub indent: usize,
    /// What it says.
    pub content: Content,
}

/// What a line says, or that it says nothing.
#[derive(Drop)]
pub enum Said {
    /// A blank line or a comment.
    Nothing,
    /// The mark `---` at the start of the document.
    Mark,
    /// An item or an entry.
    Told(Line),
}

#[tactic(auto, using(crate::proofs::Texts::is_text, crate::proofs::Texts::is_no_text))]
fn is_utf8(bytes: &[u8]) -> bool
    ensures { result ≡ is_utf8 bytes.now }
{
    match str::from_utf8(bytes) {
        Ok(_text) => true,
        Err(_fault) => false,
    }
}

#[tactic(auto, unfolding(crate::specs::Lines::is_skipped))]
fn is_skipped(text: &[u8]) -> bool
    ensures { result ≡ is_skipped text.now }
{
    text.is_empty() || starts(text, b'#')
}

#[tactic(auto, unfolding(crate::specs::Lines::is_mark))]
fn is_mark(raw: &[u8]) -> bool
    ensures { result ≡ is_mark raw.now }
{
    match stripped(raw, b"---") {
        Some(rest) => ends(rest),
        None => false,
    }
}

#[tactic(auto, unfolding(crate::specs::Lines::line_at))]
fn told(alloc: Global, number: u32, raw: &[u8]) -> Result<Said, Refusal>
    ensures { Gives (λ said. said) result (line_at number raw.now) }
{
    let text = after_spaces(raw);
    let content = content_of(alloc, text)?;
    Ok(Said::Told(Line {
        number,
        indent: raw.len().saturating_sub(text.len()),
        content,
    }))
}

/// What the line of that number says, where `first` tells that no line before it said anything.
#[tactic(auto, unfolding(crate::specs::Lines::said_at))]
pub fn said_in(alloc: Global, first: bool, number: u32, raw: &[u8]) -> Result<Said, Refusal>
    ensures { Gives (λ said. said) result (said_at first number raw.now) }
{
    if !is_utf8(raw) {
        return Err(Refusal::NotInForm);
    }
    if is_skipped(after_spaces(raw)) {
        return Ok(Said::Nothing);
    }
    if first && is_mark(raw) {
        return Ok(Said::Mark);
    }
    told(alloc, number, raw)
}
