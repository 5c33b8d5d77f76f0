ghost use Rattle.std.specs.Prelude.{◌≡◌, option_map};
ghost use Rattle.xml_text.specs.Views.{tag_of};
ghost use Rattle.xml_text.specs.Reading.{Gives, closer_at, opened_at, start_at, end_at};

use crate::attribute::Attribute;
use crate::attributes::{attributes_differ, split_attributes};
use crate::fault::XmlFault;
use crate::gap::after_fixed;
use crate::name::split_name;
use std::alloc::Global;
use text_scan::stripped;

/// A start tag.
#[derive(Drop)]
pub struct Tag<'a> {
    /// The name of its element.
    pub name: &'a [u8],
    /// Its attributes in their order. Their names are all different.
    pub attributes: Vec<Attribute<'a>>,
    /// Whether it ends with `/>`, so that its element has no end tag.
    pub closes_itself: bool,
}

/// Whether the start tag closes itself, by the closer at the front of the text behind white space,
/// and what follows the tag.
#[tactic(auto, unfolding(crate::specs::Reading::closer_at))]
fn split_closer(text: &[u8]) -> Option<(bool, &[u8])>
    ensures { option_map (λ x. (x.0, x.1.now)) result ≡ closer_at text.now }
{
    if let Some(rest) = after_fixed(text, b">") {
        return Some((false, rest));
    }
    let rest = after_fixed(text, b"/>")?;
    Some((true, rest))
}

fn next_closer(text: &[u8]) -> Result<(bool, &[u8]), XmlFault>
    ensures { Gives (λ x. (x.0, x.1.now)) result (closer_at text.now) }
{
    split_closer(text).ok_or(XmlFault::Syntax)
}

/// The name of the start tag at the front of the text, and what follows the name.
#[tactic(auto, unfolding(crate::specs::Reading::opened_at))]
fn split_opened(text: &[u8]) -> Result<(&[u8], &[u8]), XmlFault>
    ensures { Gives (λ x. (x.0.now, x.1.now)) result (opened_at text.now) }
{
    let inside = stripped(text, b"<").ok_or(XmlFault::Syntax)?;
    split_name(inside).ok_or(XmlFault::Syntax)
}

/// The start tag at the front of the text, and what follows it.
#[tactic(auto, unfolding(crate::specs::Reading::start_at))]
pub fn split_start(alloc: Global, text: &[u8]) -> Result<(Tag, &[u8]), XmlFault>
    ensures { Gives (λ x. (tag_of x.0, x.1.now)) result (start_at text.now) }
{
    let (name, behind) = split_opened(text)?;
    let (attributes, behind) = split_attributes(alloc, behind)?;
    let (closes_itself, rest) = next_closer(behind)?;
    if !attributes_differ(alloc, &attributes)? {
        return Err(XmlFault::Syntax);
    }
    let tag = Tag {
        name,
        attributes,
        closes_itself,
    };
    Ok((tag, rest))
}

/// The name of the end tag at the front of the text, and what follows the tag.
#[tactic(auto, unfolding(crate::specs::Reading::end_at))]
pub fn split_end(text: &[u8]) -> Option<(&[u8], &[u8])>
    ensures { option_map (λ x. (x.0.now, x.1.now)) result ≡ end_at text.now }
{
    let (name, behind) = split_name(stripped(text, b"</")?)?;
    let rest = after_fixed(behind, b">")?;
    Some((name, rest))
}
