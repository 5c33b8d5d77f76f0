ghost use Rattle.std.specs.Prelude.{◌≡◌, ◌==◌, ◌∷◌, length, option_map};
ghost use Rattle.std.specs.List.{list_any};
ghost use Rattle.frag_script.specs.Reading.{Gives, held_at, held_of, lines_left};
ghost use Rattle.frag_script.specs.ScriptLines.{before_comment, line_tokens, lines_of, without_return};
ghost use Rattle.frag_script.specs.Tokens.{tokens_in};

use crate::fault::LineFault;
use crate::statement::statement;
use crate::token::is_end;
use frag_tree::Statement;
use frag_words::is_comment;
use std::alloc::Global;

/// The first line of the text, and what follows its LF.
pub(crate) fn split_line(text: &[u8]) -> (&[u8], Option<&[u8]>)
    ensures { lines_of text.now ≡ result.0.now ∷ lines_left (option_map (λ rest. rest.now) result.1) }
{
    let mut rest = text;
    while let Some((first, after)) = rest.split_first() {
        if *first == b'\n' {
            return (text.split_at(text.len() - rest.len()).0, Some(after));
        }
        rest = after;
    }
    (text, None)
}

/// The line without one CR at its end.
fn without_return(line: &[u8]) -> &[u8]
    ensures { result.now ≡ without_return line.now }
{
    match line.split_last() {
        Some((last, before)) => { if *last == b'\r' { before } else { line } }
        None => line,
    }
}

/// What stands before the first `//`.
fn before_comment(line: &[u8]) -> &[u8]
    ensures { result.now ≡ before_comment line.now }
{
    let mut rest = line;
    while let Some((first, after)) = rest.split_first() {
        if is_comment(*first, after) {
            return line.split_at(line.len() - rest.len()).0;
        }
        rest = after;
    }
    line
}

/// Whether a CR stands in the text.
fn has_return(text: &[u8]) -> bool
    ensures { result ≡ list_any (λ byte. byte == 13) text.now }
{
    text.iter().any(|byte| *byte == b'\r')
}

/// The part of a line that holds its words. `None` where a CR stands in it.
#[tactic(auto, unfolding(crate::specs::ScriptLines::line_tokens))]
fn code_of(line: &[u8]) -> Option<&[u8]>
    ensures { option_map (λ code. tokens_in code.now) result ≡ line_tokens line.now }
{
    let code = before_comment(without_return(line));
    if has_return(code) { None } else { Some(code) }
}

/// No statement, or the one that the text spells.
#[tactic(auto, unfolding(crate::specs::Reading::held_of))]
fn held_by(alloc: Global, code: &[u8]) -> Result<Option<Statement>, LineFault>
    ensures { Gives (λ held. held) result (held_of (tokens_in code.now)) }
{
    if is_end(code) {
        return Ok(None);
    }
    let statement = statement(alloc, code)?;
    Ok(Some(statement))
}

/// What a line holds: no statement, or one.
#[tactic(auto, unfolding(crate::specs::Reading::held_at))]
pub(crate) fn held(alloc: Global, line: &[u8]) -> Result<Option<Statement>, LineFault>
    ensures { Gives (λ held. held) result (held_at line.now) }
{
    let Some(code) = code_of(line) else {
        return Err(LineFault::NotAStatement);
    };
    held_by(alloc, code)
}
