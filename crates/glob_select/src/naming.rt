ghost use Rattle.std.specs.Prelude.{◌≡◌, ◌++◌, ◌==◌, IfOk, OnOk};
ghost use Rattle.std.specs.List.{count_by, flat_map};
ghost use Rattle.glob_select.specs.Naming.{is_open, plain_text};
ghost use Rattle.glob_select.specs.Reading.{items_of};
ghost use Rattle.glob_select.specs.Tokens.{item_of, CountedBehind};

use crate::token::{Token, token_at};
use std::alloc::{AllocError, Global};

impl Token<'_> {
    ghost use Rattle.std.specs.Prelude.{◌≡◌, ◌++◌, OnOk};
    ghost use Rattle.glob_select.specs.Naming.{is_open, plain_text};
    ghost use Rattle.glob_select.specs.Tokens.{item_of};

    // Whether the item stands for more than one text.
    fn is_open(self) -> bool
        ensures { result ≡ is_open (item_of self.entry) }
    {
        match self {
            Token::Byte(_) | Token::Mark => false,
            Token::Star | Token::AnyByte | Token::Class(_) => true,
        }
    }

    // Adds the text of the item, which is nothing where the item is open.
    fn add_plain(self, made: &mut Vec<u8>) -> Result<(), AllocError>
        ensures { OnOk result (made.new.items ≡ made.old.items ++ plain_text (item_of self.entry)) }
    {
        match self {
            Token::Byte(byte) => made.push(byte)?,
            Token::Mark => made.extend_from_slice(b"[%s]")?,
            Token::Star | Token::AnyByte | Token::Class(_) => {}
        }
        Ok(())
    }
}

// What follows the first open item.
fn after_open(items: &[u8]) -> Option<&[u8]>
    ensures { CountedBehind (count_by is_open (items_of items.now)) result }
{
    let mut rest = items;
    while let Some((token, after)) = token_at(rest) {
        if token.is_open() {
            return Some(after);
        }
        rest = after;
    }
    None
}

/// Whether exactly one of the items at the front of the text is open.
pub fn has_one_open(items: &[u8]) -> bool
    ensures { result ≡ (count_by is_open (items_of items.now) == 1) }
{
    match after_open(items) {
        None => false,
        Some(rest) => after_open(rest).is_none(),
    }
}

/// The text of the items at the front of the text, without the open ones.
pub fn plain_text(alloc: Global, items: &[u8]) -> Result<Vec<u8>, AllocError>
    ensures { IfOk result (λ text. text.items ≡ flat_map plain_text (items_of items.now)) }
{
    let mut made = Vec::new(alloc);
    let mut rest = items;
    while let Some((token, after)) = token_at(rest) {
        token.add_plain(&mut made)?;
        rest = after;
    }
    Ok(made)
}
