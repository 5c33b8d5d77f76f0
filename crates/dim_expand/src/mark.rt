ghost use Rattle.std.specs.Prelude.{◌≡◌, ◌≤◌, IfOk, length};
ghost use Rattle.std.specs.List.{list_all, prefix_len};
ghost use Rattle.pac_base.specs.Names.{is_word_byte, IsName};
ghost use Rattle.dim_expand.specs.Marks.{is_marked, is_list_name, has_array_mark, before_mark, from_mark, behind_mark, indexed};
ghost use Rattle.dim_expand.specs.Walks.{name_or};

use pac_base::{Name, NameFault, NoMemory};
use std::alloc::Global;

fn is_word_byte(byte: u8) -> bool
    ensures { result ≡ is_word_byte byte }
{
    matches!(byte, b'A'..=b'Z' | b'a'..=b'z' | b'0'..=b'9' | b'_')
}

/// Whether all bytes are letters, digits or `_`.
fn is_word(bytes: &[u8]) -> bool
    ensures { result ≡ list_all is_word_byte bytes.now }
{
    bytes.iter().all(|byte| is_word_byte(*byte))
}

/// How many bytes at the front are letters, digits or `_`.
fn word_len(bytes: &[u8]) -> usize
    ensures count { result ≡ prefix_len is_word_byte bytes.now }
    ensures within { result ≤ length bytes.now }
{
    bytes.iter().take_while(|byte| is_word_byte(**byte)).count()
}

/// What stands before the mark of a name.
fn before_mark(name: &[u8]) -> &[u8]
    ensures { result.now ≡ before_mark name.now }
{
    name.split_at(word_len(name)).0
}

/// The mark of a name, and what stands behind it.
fn from_mark(name: &[u8]) -> &[u8]
    ensures { result.now ≡ from_mark name.now }
{
    name.split_at(word_len(name)).1
}

/// Whether the mark of a name is that of arrays, `[%s]`.
fn has_array_mark(name: &[u8]) -> bool
    ensures { result ≡ has_array_mark name.now }
{
    from_mark(name) == b"[%s]".as_slice()
}

/// What stands behind the mark of a name.
fn behind_mark(name: &[u8]) -> &[u8]
    ensures { result.now ≡ behind_mark name.now }
{
    if has_array_mark(name) {
        return b"";
    }
    match from_mark(name) {
        [_, _, behind @ ..] => behind,
        _ => b"",
    }
}

/// Whether the name holds the mark `%s`.
#[tactic(auto, unfolding(crate::specs::Marks::is_marked))]
pub fn is_marked(name: &Name) -> bool
    ensures marked { result ≡ is_marked name.now }
    ensures named { IsName name.now }
{
    !is_word(name.bytes())
}

/// Whether an element of the name is a list, where elements of its kind may be arrays or not.
#[tactic(auto, unfolding(crate::specs::Marks::is_list_name))]
pub fn is_list_name(arrays: bool, name: &Name) -> bool
    ensures list { result ≡ is_list_name arrays name.now }
    ensures named { IsName name.now }
{
    is_marked(name) && !(arrays && has_array_mark(name.bytes()))
}

/// The name of these bytes, or the name itself where they are none.
fn name_or(alloc: Global, name: &Name, bytes: &[u8]) -> Result<Name, NoMemory>
    ensures { IfOk result (λ made. made ≡ name_or name.now bytes.now) }
{
    match Name::new(alloc, bytes) {
        Ok(made) => Ok(made),
        Err(NameFault::NotAName) => name.copy(alloc),
        Err(NameFault::Memory) => Err(NoMemory),
    }
}

/// The name with the index in the place of its mark. That makes a word wherever no dimension is at fault; else the name stays.
#[tactic(auto, unfolding(crate::specs::Marks::indexed))]
pub fn indexed(alloc: Global, name: &Name, index: &[u8]) -> Result<Name, NoMemory>
    ensures { IfOk result (λ made. made ≡ name_or name.now (indexed name.now index.now)) }
{
    let mut bytes = Vec::from_slice(alloc, before_mark(name.bytes()))?;
    bytes.extend_from_slice(index)?;
    bytes.extend_from_slice(behind_mark(name.bytes()))?;
    name_or(alloc, name, bytes.as_slice())
}
