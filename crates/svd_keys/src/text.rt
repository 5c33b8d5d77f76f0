ghost use Rattle.std.specs.Prelude.{◌≡◌};
ghost use Rattle.svd_keys.specs.Texts.{before_blanks, trimmed, place_after, span_at, trimmed_span, value_text, value_span, name_span};
ghost use Rattle.svd_text.specs.Views.{element_of};

use pac_base::Span;
use svd_text::Element;
use text_scan::{Class, after_blanks};

// The text without the white space at its end.
#[tactic(auto, unfolding(crate::specs::Texts::before_blanks))]
fn before_blanks(text: &[u8]) -> &[u8]
    ensures { result.now ≡ before_blanks text.now }
{
    let mut rest = text;
    while let [before @ .., last] = rest {
        if !Class::Blank.has(*last) {
            break;
        }
        rest = before;
    }
    rest
}

// The text without the white space at both ends.
#[tactic(auto, unfolding(crate::specs::Texts::trimmed))]
fn trimmed(text: &[u8]) -> &[u8]
    ensures { result.now ≡ trimmed text.now }
{
    before_blanks(after_blanks(text))
}

// The place so many bytes on; the last one where it passes all.
fn place_after(at: u32, count: usize) -> u32
    ensures { result ≡ place_after at count }
{
    match u32::try_from(count) {
        Ok(count) => at.saturating_add(count),
        Err(_) => u32::MAX,
    }
}

/// The bytes of a text that begins at the place.
#[tactic(auto, unfolding(crate::specs::Texts::span_at))]
pub(crate) fn span_at(at: u32, text: &[u8]) -> Span
    ensures { result ≡ span_at at text.now }
{
    Span {
        start: at,
        end: place_after(at, text.len()),
    }
}

// The bytes of a text that begins at the place, without the white space at both ends; none at that
// place where nothing is left.
#[tactic(auto, unfolding(crate::specs::Texts::trimmed_span))]
fn trimmed_span(at: u32, text: &[u8]) -> Span
    ensures { result ≡ trimmed_span at text.now }
{
    let said = trimmed(text);
    if said.len() == 0 {
        return span_at(at, b"");
    }
    let blanks = text.len().saturating_sub(after_blanks(text).len());
    span_at(place_after(at, blanks), said)
}

/// What a key says.
pub(crate) fn value_text<'a>(element: &'a Element) -> &'a [u8]
    ensures { result.now ≡ value_text (element_of element.now).0 }
{
    trimmed(element.said.bytes())
}

/// Where the value of a key is written.
pub(crate) fn value_span(element: &Element) -> Span
    ensures { result ≡ value_span (element_of element.now).0 }
{
    trimmed_span(element.inside_at, element.inside)
}

/// Where the name in an element's start tag stands.
pub(crate) fn name_span(element: &Element) -> Span
    ensures { result ≡ name_span (element_of element.now).0 }
{
    span_at(element.name_at, element.name)
}
