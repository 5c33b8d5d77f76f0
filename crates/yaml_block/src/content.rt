ghost use Rattle.std.specs.Prelude.{◌≡◌};
ghost use Rattle.yaml_block.specs.Reading.{Gives};
ghost use Rattle.yaml_block.specs.Contents.{behind_key, content_at, entry_at, entry_with, item_at};

use crate::refusal::Refusal;
use crate::scalar::{Place, scalar_text};
use crate::space::{after_spaces, ends, starts};
use crate::value::{Value, value_of};
use pac_base::Text;
use std::alloc::Global;
use text_scan::stripped;

/// What a line says.
#[derive(Debug, Drop)]
pub enum Content {
    /// An item of a list, `- value`.
    Item(Value),
    /// A key without a value on its line, `key:`.
    Key(Text),
    /// A key and its value, `key: value`.
    Entry(Text, Value),
}

#[tactic(auto, unfolding(crate::specs::Contents::item_at))]
fn item(alloc: Global, text: &[u8]) -> Result<Content, Refusal>
    ensures { Gives (λ content. content) result (item_at text.now) }
{
    let (value, rest) = value_of(alloc, after_spaces(text))?;
    if !ends(rest) {
        return Err(Refusal::NotInForm);
    }
    Ok(Content::Item(value))
}

#[tactic(auto, unfolding(crate::specs::Contents::entry_with))]
fn entry_with(alloc: Global, key: Text, text: &[u8]) -> Result<Content, Refusal>
    ensures { Gives (λ content. content) result (entry_with key text.now) }
{
    let (value, rest) = value_of(alloc, after_spaces(text))?;
    if !ends(rest) {
        return Err(Refusal::NotInForm);
    }
    Ok(Content::Entry(key, value))
}

#[tactic(auto, unfolding(crate::specs::Contents::behind_key))]
fn behind_key(alloc: Global, key: Text, text: &[u8]) -> Result<Content, Refusal>
    ensures { Gives (λ content. content) result (behind_key key text.now) }
{
    if ends(text) {
        return Ok(Content::Key(key));
    }
    if !starts(text, b' ') {
        return Err(Refusal::NotInForm);
    }
    entry_with(alloc, key, text)
}

#[tactic(auto, unfolding(crate::specs::Contents::entry_at))]
fn entry(alloc: Global, text: &[u8]) -> Result<Content, Refusal>
    ensures { Gives (λ content. content) result (entry_at text.now) }
{
    let (key, rest) = scalar_text(alloc, Place::Line, text)?;
    let rest = stripped(after_spaces(rest), b":").ok_or(Refusal::NotInForm)?;
    behind_key(alloc, key, rest)
}

/// What the line says, given without the spaces at its front.
#[tactic(auto, unfolding(crate::specs::Contents::content_at))]
pub fn content_of(alloc: Global, text: &[u8]) -> Result<Content, Refusal>
    ensures { Gives (λ content. content) result (content_at text.now) }
{
    match stripped(text, b"- ") {
        Some(inside) => item(alloc, inside),
        None => entry(alloc, text),
    }
}
