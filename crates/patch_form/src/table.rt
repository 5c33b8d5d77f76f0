ghost use Rattle.std.specs.Prelude.{◌≡◌, IsTrue, length};
ghost use Rattle.std.specs.Map.{lookup};
ghost use Rattle.std.specs.Str.{bytes_eq};
ghost use Rattle.case_table.specs.Entries.{entries_of, words_of};
ghost use Rattle.case_table.specs.Rising.{rises};
ghost use Rattle.patch_form.specs.Words.{device_key, device_keys, element_keys, key_kind, key_word, key_words, other_word};
ghost use Rattle.patch_form.specs.Codes.{coded, device_code, kind_at, kind_code, word_at, word_code};

use crate::form::{Form, KeyKind};
use crate::word::{KeyWord, Word};
use case_table::{CaseRow, CaseTable};

/// The code of a text in rows whose words rise; None where no row has it.
fn code_of<const N: usize>(rows: &[CaseRow], text: &[u8]) -> Option<u16>
    requires long { length rows.now ≡ N }
    requires rising { IsTrue (rises (words_of (entries_of rows.now))) }
    ensures { result ≡ lookup (bytes_eq text.now) (entries_of rows.now) }
{
    let table = CaseTable::<N>::of_rising(rows);
    table.find(text)
}

// The code of the row that has the text. The rows stand in rising order of their words.
macro_rules! code_in {
    ($text:expr, $count:literal; $($code:literal $word:literal),* $(,)?) => {{
        let rows = [$(CaseRow { word: $word, code: $code }),*];
        code_of::<$count>(&rows, $text)
    }};
}

#[tactic(auto, unfolding(crate::specs::Words::element_keys))]
fn element_code(key: &[u8]) -> Option<u16>
    ensures { result ≡ lookup (bytes_eq key.now) (coded kind_code element_keys) }
{
    code_in!(key, 38;
        2 "access",
        10 "addressBlock",
        10 "addressBlocks",
        0 "addressOffset",
        10 "addressUnitBits",
        6 "alternateCluster",
        6 "alternateGroup",
        10 "alternatePeripheral",
        6 "alternateRegister",
        0 "baseAddress",
        0 "bitOffset",
        1 "bitRange",
        0 "bitWidth",
        10 "cpu",
        7 "derivedFrom",
        10 "description",
        0 "dim",
        0 "dimIncrement",
        5 "dimIndex",
        10 "displayName",
        9 "fields",
        6 "from",
        10 "groupName",
        10 "interrupts",
        0 "lsb",
        3 "modifiedWriteValues",
        0 "msb",
        6 "name",
        10 "protection",
        4 "readAction",
        9 "registers",
        0 "resetMask",
        0 "resetValue",
        0 "size",
        10 "vendor",
        10 "version",
        10 "width",
        10 "writeConstraint",
    )
}

/// What a key of an element asks of its value; None where a patch doesn't know it.
pub fn key_kind(key: &[u8]) -> Option<KeyKind>
    ensures { result ≡ key_kind key.now }
{
    match element_code(key) {
        None => None,
        Some(code) => kind_at(code),
    }
}

#[tactic(auto, unfolding(crate::specs::Words::device_keys))]
fn device_code(key: &[u8]) -> Option<u16>
    ensures { result ≡ lookup (bytes_eq key.now) (coded device_code device_keys) }
{
    code_in!(key, 19;
        2 "access",
        10 "addressUnitBits",
        10 "cpu",
        10 "description",
        11 "headerDefinitionsPrefix",
        11 "headerSystemFilename",
        11 "licenseText",
        8 "name",
        11 "peripherals",
        10 "protection",
        0 "resetMask",
        0 "resetValue",
        11 "series",
        0 "size",
        10 "vendor",
        11 "vendorExtensions",
        11 "vendorID",
        10 "version",
        10 "width",
    )
}

/// What a key of the device asks of its value; None where the device has no such key.
pub fn device_key(key: &[u8]) -> Option<Option<KeyKind>>
    ensures { result ≡ device_key key.now }
{
    match device_code(key) {
        None => None,
        Some(code) => Some(kind_at(code)),
    }
}

fn kind_at(code: u16) -> Option<KeyKind>
    ensures { result ≡ kind_at code }
{
    match code {
        0 => Some(KeyKind::Used(Form::Number)),
        1 => Some(KeyKind::Used(Form::Range)),
        2 => Some(KeyKind::Used(Form::Access)),
        3 => Some(KeyKind::Used(Form::WriteKind)),
        4 => Some(KeyKind::Used(Form::ReadAction)),
        5 => Some(KeyKind::Used(Form::Index)),
        6 => Some(KeyKind::Used(Form::Name)),
        7 => Some(KeyKind::Used(Form::NamePath)),
        8 => Some(KeyKind::Used(Form::DeviceName)),
        9 => Some(KeyKind::Children),
        10 => Some(KeyKind::PassedOver),
        _ => None,
    }
}

fn other_word(key: &[u8]) -> KeyWord
    ensures { result ≡ other_word key.now }
{
    match key {
        [] => KeyWord::Pattern,
        [first, ..] => {
            if *first == b'_' {
                KeyWord::Unknown
            } else {
                KeyWord::Pattern
            }
        }
    }
}

fn word_at(code: u16) -> KeyWord
    ensures { result ≡ word_at code }
{
    match code {
        0 => KeyWord::Command(Word::Delete),
        1 => KeyWord::Command(Word::Copy),
        2 => KeyWord::Command(Word::Modify),
        3 => KeyWord::Command(Word::Add),
        4 => KeyWord::Command(Word::Strip),
        5 => KeyWord::Command(Word::Array),
        _ => KeyWord::Ignored,
    }
}

#[tactic(auto, unfolding(crate::specs::Words::key_words))]
fn word_code(key: &[u8]) -> Option<u16>
    ensures { result ≡ lookup (bytes_eq key.now) (coded word_code key_words) }
{
    code_in!(key, 7;
        3 "_add", 5 "_array", 1 "_copy", 0 "_delete", 2 "_modify", 4 "_strip", 6 "_svd",
    )
}

/// What a key of a mapping is.
pub fn key_word(key: &[u8]) -> KeyWord
    ensures { result ≡ key_word key.now }
{
    match word_code(key) {
        None => other_word(key),
        Some(code) => word_at(code),
    }
}
