ghost use Rattle.std.specs.Prelude.{◌≡◌, ◌<◌, ◌∷◌, length, IfOk, IfSome, MatchBool, option_map};
ghost use Rattle.std.specs.List.{list_all};
ghost use Rattle.text_scan.specs.Classes.{is_blank};
ghost use Rattle.text_scan.specs.Fronts.{rest_of};
ghost use Rattle.patch_form.specs.Forms.{HasForm, is_no_dot, is_printed, trimmed, dotted_parts, parts_left};
ghost use Rattle.patch_form.specs.declared.form.Form.TheVariants as forms;

use pac_base::{Name, NameFault, NoMemory};
use std::alloc::Global;
use svd_values::{IndexFault, access_word, bit_range, dim_index, number, read_action, write_kind};
use text_scan::after_blanks;

/// The form of the value of a key, trimmed of white space.
#[derive(Clone, Copy)]
pub enum Form {
    /// A whole number below 2^64.
    Number,
    /// `[msb:lsb]`.
    Range,
    /// A word of `access`.
    Access,
    /// A word of `modifiedWriteValues`.
    WriteKind,
    /// A word of `readAction`.
    ReadAction,
    /// An index of a dimension.
    Index,
    /// A name.
    Name,
    /// Names parted by dots.
    NamePath,
    /// The name of a device.
    DeviceName,
}

/// What a key among a command's keys asks of its value.
#[derive(Clone, Copy)]
pub enum KeyKind {
    /// A scalar of this form.
    Used(Form),
    /// A mapping of elements to add.
    Children,
    /// Anything.
    PassedOver,
}

fn is_blank(byte: u8) -> bool
    ensures { result ≡ is_blank byte }
{
    byte == b' ' || byte == b'\t' || byte == b'\r' || byte == b'\n'
}

/// The text without the white space at its two ends.
#[tactic(auto, unfolding(crate::specs::Forms::trimmed))]
pub fn trimmed(text: &[u8]) -> &[u8]
    ensures { result.now ≡ trimmed text.now }
{
    let mut rest = after_blanks(text);
    'rest: while let Some((last, before)) = rest.split_last() {
        if !is_blank(*last) {
            break;
        }
        rest = before;
    }
    rest
}

fn is_number(text: &[u8]) -> bool
    ensures { MatchBool result (HasForm forms.Number text.now) (¬ (HasForm forms.Number text.now)) }
{
    number(text).is_some()
}

fn is_range(text: &[u8]) -> bool
    ensures { MatchBool result (HasForm forms.Range text.now) (¬ (HasForm forms.Range text.now)) }
{
    bit_range(text).is_some()
}

fn is_access(text: &[u8]) -> bool
    ensures { MatchBool result (HasForm forms.Access text.now) (¬ (HasForm forms.Access text.now)) }
{
    access_word(text).is_some()
}

fn is_write_kind(text: &[u8]) -> bool
    ensures { MatchBool result (HasForm forms.WriteKind text.now) (¬ (HasForm forms.WriteKind text.now)) }
{
    write_kind(text).is_some()
}

fn is_read_action(text: &[u8]) -> bool
    ensures { MatchBool result (HasForm forms.ReadAction text.now) (¬ (HasForm forms.ReadAction text.now)) }
{
    read_action(text).is_some()
}

fn is_index(alloc: Global, text: &[u8]) -> Result<bool, NoMemory>
    ensures { IfOk result (λ formed. MatchBool formed (HasForm forms.Index text.now) (¬ (HasForm forms.Index text.now))) }
{
    match dim_index(alloc, text) {
        Ok(_) => Ok(true),
        Err(IndexFault::NotAnIndex) => Ok(false),
        Err(IndexFault::Memory) => Err(NoMemory),
    }
}

/// Whether the text is a name.
pub fn is_name(alloc: Global, text: &[u8]) -> Result<bool, NoMemory>
    ensures { IfOk result (λ formed. MatchBool formed (HasForm forms.Name text.now) (¬ (HasForm forms.Name text.now))) }
{
    match Name::new(alloc, text) {
        Ok(_) => Ok(true),
        Err(NameFault::NotAName) => Ok(false),
        Err(NameFault::Memory) => Err(NoMemory),
    }
}

fn is_printed(byte: u8) -> bool
    ensures { result ≡ is_printed byte }
{
    (32..=126).contains(&byte)
}

fn is_printed_text(text: &[u8]) -> bool
    ensures { result ≡ list_all is_printed text.now }
{
    text.iter().all(|byte| is_printed(*byte))
}

fn is_device_name(text: &[u8]) -> bool
    ensures { MatchBool result (HasForm forms.DeviceName text.now) (¬ (HasForm forms.DeviceName text.now)) }
{
    if text.is_empty() {
        return false;
    }
    if text.len() > 255 {
        return false;
    }
    is_printed_text(text)
}

#[tactic(auto, unfolding(text_scan::specs::Fronts::rest_of))]
fn from_dot(text: &[u8]) -> &[u8]
    ensures { result.now ≡ rest_of is_no_dot text.now }
{
    let mut rest = text;
    while let [first, after @ ..] = rest {
        if *first == b'.' {
            break;
        }
        rest = after;
    }
    rest
}

/// The text up to its first dot, and what follows the dot, if there is one.
fn split_dot(text: &[u8]) -> (&[u8], Option<&[u8]>)
    ensures parts { dotted_parts text.now ≡ result.0.now ∷ parts_left (option_map (λ after. after.now) result.1) }
    ensures shorter { IfSome result.1 (λ after. length after.now < length text.now) }
{
    let rest = from_dot(text);
    let (front, _) = text.split_at(text.len() - rest.len());
    match rest {
        [] => (front, None),
        [_, after @ ..] => (front, Some(after)),
    }
}

fn is_path(alloc: Global, text: &[u8]) -> Result<bool, NoMemory>
    ensures { IfOk result (λ formed. MatchBool formed (HasForm forms.NamePath text.now) (¬ (HasForm forms.NamePath text.now))) }
{
    let mut rest = Some(text);
    'parts: while let Some(left) = rest {
        let (part, after) = split_dot(left);
        if !is_name(alloc, part)? {
            return Ok(false);
        }
        rest = after;
    }
    Ok(true)
}

/// Whether the text has the form.
pub fn has_form(alloc: Global, form: Form, text: &[u8]) -> Result<bool, NoMemory>
    ensures { IfOk result (λ formed. MatchBool formed (HasForm form text.now) (¬ (HasForm form text.now))) }
{
    match form {
        Form::Number => Ok(is_number(text)),
        Form::Range => Ok(is_range(text)),
        Form::Access => Ok(is_access(text)),
        Form::WriteKind => Ok(is_write_kind(text)),
        Form::ReadAction => Ok(is_read_action(text)),
        Form::Index => is_index(alloc, text),
        Form::Name => is_name(alloc, text),
        Form::NamePath => is_path(alloc, text),
        Form::DeviceName => Ok(is_device_name(text)),
    }
}
