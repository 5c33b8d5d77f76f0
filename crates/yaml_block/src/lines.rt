ghost use Rattle.std.specs.Prelude.{◌≡◌, ◌<◌, ◌≤◌, ◌∷◌, length, IfOk, IfSome, MatchBool, option_map, true};
ghost use Rattle.text_scan.specs.Fronts.{rest_of};
ghost use Rattle.yaml_block.specs.Lines.{found_in, is_no_feed, lines_from, lines_left, raw_lines, unmarked, without_return};

use crate::line::{Line, Said, said_in};
use crate::refusal::Refusal;
use pac_base::{NoMemory, Seq};
use std::alloc::Global;
use text_scan::stripped;

/// The lines of a text that say something, up to the first that has not the form.
#[derive(Drop)]
pub struct Found {
    /// The lines, in order.
    pub lines: Seq<Line>,
    /// The number of the first line that has not the form, counted from 1.
    pub fault: Option<u32>,
}

#[tactic(auto, unfolding(text_scan::specs::Fronts::rest_of))]
fn from_feed(text: &[u8]) -> &[u8]
    ensures { result.now ≡ rest_of is_no_feed text.now }
{
    let mut rest = text;
    while let [first, after @ ..] = rest {
        if *first == b'\n' {
            break;
        }
        rest = after;
    }
    rest
}

fn without_return(line: &[u8]) -> &[u8]
    ensures { result.now ≡ without_return line.now }
{
    match line {
        [] => line,
        [before @ .., last] => { if *last == b'\r' { before } else { line } }
    }
}

/// The first line of the text, and what follows it where it ends at a line feed.
fn split_line(text: &[u8]) -> (&[u8], Option<&[u8]>)
    ensures lines { raw_lines text.now ≡ result.0.now ∷ lines_left (option_map (λ after. after.now) result.1) }
    ensures shorter { IfSome result.1 (λ after. length after.now < length text.now) }
{
    let rest = from_feed(text);
    let (front, _) = text.split_at(text.len() - rest.len());
    match rest {
        [] => (front, None),
        [_, after @ ..] => (without_return(front), Some(after)),
    }
}

/// The lines that were taken in, and whether the next one may be the first that says something.
#[derive(Drop)]
struct Reader {
    lines: Seq<Line>,
    first: bool,
}

impl Reader {
    ghost use Rattle.std.specs.Prelude.{◌≡◌, IfOk, MatchBool, None, Bool};
    ghost use Rattle.yaml_block.specs.declared.lines.Found.{Found};
    ghost use Rattle.yaml_block.specs.Lines.{joined, lines_with, said_at};

    /// Takes in the line of that number, and says whether it has the form.
    fn take_in(&mut self, alloc: Global, number: u32, raw: &[u8]) -> Result<bool, NoMemory>
        ensures { IfOk result (λ formed. MatchBool formed
            ((others : Bool → Found) → joined self.new.lines (others self.new.first) ≡ joined self.old.lines (lines_with (said_at self.old.first number raw.now) number others self.old.first))
            ((self.new.lines ≡ self.old.lines) × (said_at self.old.first number raw.now ≡ None))) }
    {
        match said_in(alloc, self.first, number, raw) {
            Ok(Said::Nothing) => Ok(true),
            Ok(Said::Mark) => {
                self.first = false;
                Ok(true)
            }
            Ok(Said::Told(line)) => {
                self.first = false;
                self.lines.push(line)?;
                Ok(true)
            }
            Err(Refusal::NotInForm) => Ok(false),
            Err(Refusal::Memory) => Err(NoMemory),
        }
    }
}

fn found_after(alloc: Global, text: &[u8]) -> Result<Found, NoMemory>
    requires { length text.now ≤ 67_108_864 }
    ensures { IfOk result (λ found. found ≡ lines_from true 1 (raw_lines text.now)) }
{
    let mut reader = Reader {
        lines: Seq::new(alloc),
        first: true,
    };
    let mut number = 1;
    let mut rest = Some(text);
    'lines: while let Some(left) = rest {
        let (raw, after) = split_line(left);
        if !reader.take_in(alloc, number, raw)? {
            return Ok(Found {
                lines: reader.lines,
                fault: Some(number),
            });
        }
        number += 1;
        rest = after;
    }
    Ok(Found {
        lines: reader.lines,
        fault: None,
    })
}

#[tactic(auto, unfolding(crate::specs::Lines::unmarked))]
fn unmarked(bytes: &[u8]) -> &[u8]
    ensures same { result.now ≡ unmarked bytes.now }
    ensures no_longer { length result.now ≤ length bytes.now }
{
    match stripped(bytes, b"\xEF\xBB\xBF") {
        Some(rest) => rest,
        None => bytes,
    }
}

/// The lines of the bytes that say something, with their numbers and indents, up to the first line
/// that has not the form of block text: `- value`, `key:` or `key: value`, or the mark `---` before
/// all others. Blank lines and comments say nothing.
#[tactic(auto, unfolding(crate::specs::Lines::found_in))]
pub fn read_lines(alloc: Global, bytes: &[u8]) -> Result<Found, NoMemory>
    requires { length bytes.now ≤ 67_108_864 }
    ensures { IfOk result (λ found. found ≡ found_in bytes.now) }
{
    found_after(alloc, unmarked(bytes))
}
