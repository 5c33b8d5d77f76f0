//! What an element comes to, where that of its source is known.
ghost use Rattle.std.specs.Prelude.{◌≡◌, IfOk, not};
ghost use Rattle.std.specs.List.{list_all};
ghost use Rattle.derive_build.specs.Children.{children_of, plain_by};
ghost use Rattle.derive_build.specs.Nodes.{own_node};
ghost use Rattle.derive_build.specs.Taking.{taking};
ghost use Rattle.derived_rows.specs.Merging.{sets_of};
ghost use Rattle.pac_base.specs.Names.{is_word_byte};

use crate::children::{merged, own_name};
use crate::keys::Keys;
use crate::own::Own;
use pac_base::NoMemory;
use std::alloc::Global;

/// An element with its keys after deriving, and its children by their numbers.
#[derive(Drop)]
pub struct Settled<'a> {
    /// The element as it was described.
    pub own: Own<'a>,
    /// Its keys.
    pub keys: Keys<'a>,
    /// Its children.
    pub children: Vec<usize>,
}

/// Whether a byte is a letter, a digit or `_`.
fn is_word_byte(byte: u8) -> bool
    ensures { result ≡ is_word_byte byte }
{
    matches!(byte, b'A'..=b'Z' | b'a'..=b'z' | b'0'..=b'9' | b'_')
}

/// Whether all bytes are letters, digits or `_`.
fn is_word(bytes: &[u8]) -> bool
    ensures { result ≡ list_all is_word_byte bytes.now }
{
    bytes.iter().all(|byte| is_word_byte(*byte))
}

/// Whether the name of an element holds the mark `%s`.
fn is_marked(own: Own<'_>) -> bool
    ensures { result ≡ not (list_all is_word_byte (own_node own.entry).name) }
{
    !is_word(own_name(own))
}

/// The same numbers once more.
pub(crate) fn copied(alloc: Global, numbers: &[usize]) -> Result<Vec<usize>, NoMemory>
    ensures { IfOk result (λ made. made.items ≡ numbers.now) }
{
    let mut made = Vec::new(alloc);
    for number in numbers {
        made.push(*number)?;
    }
    Ok(made)
}

/// The own sets of a field, where there are any, stand in the place of all of its source's.
fn sets_taken(
    alloc: Global,
    owns: &[Own<'_>],
    source: &[usize],
    own: &[usize],
) -> Result<Vec<usize>, NoMemory>
    ensures { IfOk result (λ made. children_of owns.now made.items ≡ sets_of (children_of owns.now source.now) (children_of owns.now own.now)) }
{
    let _ = owns;
    match own {
        [_, ..] => copied(alloc, own),
        _ => copied(alloc, source),
    }
}

/// The children of an element, where these are its source's and these its own.
fn children_taken<'a>(
    alloc: Global,
    owns: &[Own<'a>],
    element: Own<'a>,
    source: &[usize],
    own: &[usize],
) -> Result<Vec<usize>, NoMemory>
    ensures { IfOk result (λ made. children_of owns.now made.items ≡ plain_by (own_node element.entry).kind (children_of owns.now source.now) (children_of owns.now own.now)) }
{
    match element {
        Own::Field(_, _) => sets_taken(alloc, owns, source, own),
        _ => merged(alloc, owns, source, own),
    }
}

/// What an element comes to, where it stands as described, and its source as that comes to.
pub fn taken_from<'a>(
    alloc: Global,
    owns: &[Own<'a>],
    element: &Settled<'a>,
    source: &Settled<'a>,
) -> Result<Settled<'a>, NoMemory>
    ensures own { IfOk result (λ made. made.own ≡ element.now.own) }
    ensures keys { IfOk result (λ made. made.keys ≡ taking (not (list_all is_word_byte (own_node element.now.own).name)) element.now.keys source.now.keys) }
    ensures children { IfOk result (λ made. children_of owns.now made.children.items ≡ plain_by (own_node element.now.own).kind (children_of owns.now source.now.children.items) (children_of owns.now element.now.children.items)) }
{
    Ok(Settled {
        own: element.own,
        keys: element.keys.taking(is_marked(element.own), &source.keys),
        children: children_taken(
            alloc,
            owns,
            element.own,
            source.children.as_slice(),
            element.children.as_slice(),
        )?,
    })
}
