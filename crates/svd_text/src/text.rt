ghost use Rattle.std.specs.Prelude.{◌≡◌, ◌≤◌, ℕ, List, length, IfOk, MatchResult};
ghost use Rattle.std.specs.Str.{IsUtf8};
ghost use Rattle.xml_text.specs.Opening.{IsOpening};
ghost use Rattle.svd_text.specs.Answers.{IsRead, SyntaxSays, TooDeepSays, Answers};
ghost use Rattle.svd_text.specs.ElementText.{Text, Spells};
ghost use Rattle.svd_text.specs.Reading.{BodySays};
ghost use Rattle.svd_text.specs.Views.{element_of};

use crate::element::Element;
use crate::fault::TextFault;
use crate::passing::check;
use crate::reader::build;
use std::alloc::Global;
use std::str;
use xml_text::after_opening;

/// What follows a byte order mark and a declaration; else the byte at which it shows that the bytes
/// are no text.
fn split_body(bytes: &[u8]) -> Result<&[u8], u32>
    requires { length bytes.now ≤ 67_108_864 }
    ensures { MatchResult result
        (λ body. IsUtf8 bytes.now × IsOpening bytes.now body.now)
        (λ _. (body : List ℕ) → IsUtf8 bytes.now → IsOpening bytes.now body → ⊥) }
{
    if let Err(error) = str::from_utf8(bytes) {
        return Err(error.valid_up_to().min(bytes.len()) as u32);
    }
    match after_opening(bytes) {
        Some(body) => Ok(body),
        None => Err(bytes.len() as u32),
    }
}

/// The device in the text behind what opens a text of so many bytes.
fn read_body<'a>(alloc: Global, total: u32, body: &'a [u8]) -> Result<Element<'a>, TextFault>
    requires total { total ≤ 67_108_864 }
    requires body { length body.now ≤ 67_108_864 }
    ensures { BodySays total body.now result }
{
    match build(alloc, total, body) {
        Ok(device) => Ok(device),
        Err(TextFault::TooDeep { span }) => {
            check(alloc, total, body)?;
            Err(TextFault::TooDeep { span })
        }
        Err(fault) => Err(fault),
    }
}

/// The device element of a description's text of at most 67,108,864 bytes (XML without its document
/// types), with the elements in it and all places. A text is kept only of keys. The refusals, in the
/// order in which they are sought: `Syntax` exactly where the bytes spell no device element;
/// `TooDeep` exactly where they do, and elements nest deeper than 64, at the name in the first start
/// tag that does.
pub fn read_element(alloc: Global, bytes: &[u8]) -> Result<Element, TextFault>
    requires { length bytes.now ≤ 67_108_864 }
    // What is read is the device that the bytes spell.
    ensures spelled { IfOk result (λ device. IsRead bytes.now (element_of device)) }
    ensures syntax { SyntaxSays bytes.now result }
    ensures too_deep { TooDeepSays bytes.now result }
    // A text that the bytes spell decides the answer, unless memory runs out.
    ensures found { (text : Text) → Spells bytes.now text → Answers text result }
{
    match split_body(bytes) {
        Ok(body) => read_body(alloc, bytes.len() as u32, body),
        Err(at) => Err(TextFault::Syntax { at }),
    }
}

/// No bytes spell two texts.
pub fn one_element()
    ensures { (bytes : List ℕ) (one other : Text) → Spells bytes one → Spells bytes other → one ≡ other }
{}
