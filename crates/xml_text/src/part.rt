ghost use Rattle.std.specs.Prelude.{◌≡◌, ◌<◌, ℕ, List, length, IfOk, IsErrOf, MatchResult};
ghost use Rattle.xml_text.specs.Parts.{XmlPart, IsPart, AreParts};
ghost use Rattle.xml_text.specs.Views.{part_of};
ghost use Rattle.xml_text.specs.Reading.{Gives, part_at};

use crate::fault::XmlFault;
use crate::kind::{Kind, kind_of};
use crate::mark::after_comment;
use crate::reference::split_reference;
use crate::run::{Run, split_run};
use crate::tag::{Tag, split_end, split_start};
use std::alloc::Global;

/// A part of a description's text.
#[derive(Drop)]
pub enum Part<'a> {
    /// A start tag.
    Start(Tag<'a>),
    /// An end tag, by the name of its element.
    End(&'a [u8]),
    /// Text without `<` and `&`: at least a byte, and all of it that stands there.
    Text(&'a [u8]),
    /// The character that a reference stands for.
    Reference(char),
    /// A comment.
    Comment,
}

#[tactic(auto, unfolding(crate::specs::Reading::part_at))]
fn next_part(alloc: Global, text: &[u8]) -> Result<(Part, &[u8]), XmlFault>
    ensures { Gives (λ x. (part_of x.0, x.1.now)) result (part_at text.now) }
{
    match kind_of(text).ok_or(XmlFault::Syntax)? {
        Kind::StartTag => {
            let (tag, rest) = split_start(alloc, text)?;
            Ok((Part::Start(tag), rest))
        }
        Kind::EndTag => {
            let (name, rest) = split_end(text).ok_or(XmlFault::Syntax)?;
            Ok((Part::End(name), rest))
        }
        Kind::Words => {
            let (said, rest) = split_run(text, Run::Text);
            Ok((Part::Text(said), rest))
        }
        Kind::Character => {
            let (scalar, rest) = split_reference(text).ok_or(XmlFault::Syntax)?;
            Ok((Part::Reference(scalar), rest))
        }
        Kind::Comment => {
            let rest = after_comment(text).ok_or(XmlFault::Syntax)?;
            Ok((Part::Comment, rest))
        }
    }
}

/// The part at the front of the text, and what follows it. `Syntax` exactly where no part begins
/// the text, as where it is empty. A byte's place in a whole text is the length of the whole less
/// that of what stands from the byte on.
pub fn split_part(alloc: Global, text: &[u8]) -> Result<(Part, &[u8]), XmlFault>
    // What is read is a part, and the rest stands behind it.
    ensures spelled { IfOk result (λ x. IsPart (part_of x.0) text.now x.1.now) }
    // A part takes at least a byte.
    ensures shorter { IfOk result (λ x. length x.1.now < length text.now) }
    // What is refused begins with no part.
    ensures refused { IsErrOf result XmlFault.Syntax
        → (part : XmlPart) (rest : List ℕ) → IsPart part text.now rest → ⊥ }
    // The part that begins the text is read, unless memory runs out.
    ensures found { (part : XmlPart) (rest : List ℕ) → IsPart part text.now rest
        → MatchResult result (λ x. (part_of x.0 ≡ part) × (x.1.now ≡ rest)) (λ fault. fault ≡ XmlFault.Memory) }
{
    next_part(alloc, text)
}

/// No text is two lists of parts.
pub fn one_list_of_parts()
    ensures { (some others : List XmlPart) (text : List ℕ) → AreParts some text → AreParts others text → some ≡ others }
{}
