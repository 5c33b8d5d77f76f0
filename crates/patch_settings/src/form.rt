ghost use Rattle.std.specs.Prelude.{◌≡◌, IfOk, IsTrue};
ghost use Rattle.std.specs.List.{list_all};
ghost use Rattle.svd_keys.specs.Forms.{number_of, access_of, kind_of, action_of, range_of, is_printable, is_label, name_of, label_of, index_of};

use pac_base::{Name, NameFault, NoMemory, Text, TextFault};
use std::alloc::Global;
use svd_values::{
    Access, DimIndex, IndexFault, Place, ReadAction, WriteKind, access_word, bit_range, dim_index,
    read_action, write_kind,
};

/// A whole number below 2^64.
pub(crate) fn number(text: &[u8]) -> Option<u64>
    ensures { result ≡ number_of text.now }
{
    svd_values::number(text)
}

pub(crate) fn access(text: &[u8]) -> Option<Access>
    ensures { result ≡ access_of text.now }
{
    access_word(text)
}

pub(crate) fn kind(text: &[u8]) -> Option<WriteKind>
    ensures { result ≡ kind_of text.now }
{
    write_kind(text)
}

pub(crate) fn action(text: &[u8]) -> Option<ReadAction>
    ensures { result ≡ action_of text.now }
{
    read_action(text)
}

/// A range of bits.
pub(crate) fn range(text: &[u8]) -> Option<Place>
    ensures { result ≡ range_of text.now }
{
    bit_range(text)
}

/// The name of an element.
pub(crate) fn name(alloc: Global, text: &[u8]) -> Result<Option<Name>, NoMemory>
    ensures { IfOk result (λ made. made ≡ name_of text.now) }
{
    match Name::new(alloc, text) {
        Ok(name) => Ok(Some(name)),
        Err(NameFault::NotAName) => Ok(None),
        Err(NameFault::Memory) => Err(NoMemory),
    }
}

fn is_printable(byte: u8) -> bool
    ensures { result ≡ is_printable byte }
{
    b' ' <= byte && byte <= b'~'
}

fn are_printable(text: &[u8]) -> bool
    ensures { result ≡ list_all is_printable text.now }
{
    text.iter().all(|byte| is_printable(*byte))
}

// Whether the text is 1 to 255 printable bytes.
#[tactic(auto, unfolding(svd_keys::specs::Forms::is_label))]
fn is_label(text: &[u8]) -> bool
    ensures { result ≡ is_label text.now }
{
    1 <= text.len() && (text.len() <= 255 && are_printable(text))
}

// The text of printable bytes, which are UTF-8.
fn label_text(alloc: Global, text: &[u8]) -> Result<Text, NoMemory>
    requires { IsTrue (is_label text.now) }
    ensures { IfOk result (λ made. made ≡ text.now) }
{
    match Text::new(alloc, text) {
        Ok(label) => Ok(label),
        Err(TextFault::NotUtf8) => unreachable!(),
        Err(TextFault::Memory) => Err(NoMemory),
    }
}

/// The name of a device.
#[tactic(auto, unfolding(svd_keys::specs::Forms::label_of))]
pub(crate) fn label(alloc: Global, text: &[u8]) -> Result<Option<Text>, NoMemory>
    ensures { IfOk result (λ made. made ≡ label_of text.now) }
{
    if !is_label(text) {
        return Ok(None);
    }
    Ok(Some(label_text(alloc, text)?))
}

/// The indexes of a dimension.
pub(crate) fn index(alloc: Global, text: &[u8]) -> Result<Option<DimIndex>, NoMemory>
    ensures { IfOk result (λ made. made ≡ index_of text.now) }
{
    match dim_index(alloc, text) {
        Ok(index) => Ok(Some(index)),
        Err(IndexFault::NotAnIndex) => Ok(None),
        Err(IndexFault::Memory) => Err(NoMemory),
    }
}
