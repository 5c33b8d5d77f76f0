ghost use Rattle.std.specs.Prelude.{◌≡◌, ◌↔◌, IfOk, IsErrOf};
ghost use Rattle.std.specs.Str.{IsUtf8};
ghost use Rattle.pac_base.specs.declared.text.TextFault.TheVariants.{Memory};

use crate::memory::NoMemory;
use std::alloc::{AllocError, Global};
use std::marker::Model;
use std::str;
use thiserror::Error;

/// A text in UTF-8. Contracts see it as the list of its bytes.
#[derive(Debug, Drop)]
pub struct Text {
    text: String,
}

impl Model for Text {
    ghost use Rattle.std.specs.Prelude.{List, ℕ};
    ghost use Rattle.std.specs.String.{string_bytes};

    ghost Value = { List ℕ };

    ghost view = { λ text. string_bytes text.text };
}

/// Why bytes became no text.
#[derive(Debug, Drop, Error)]
pub enum TextFault {
    /// The bytes aren't UTF-8.
    #[error("not UTF-8")]
    NotUtf8,
    /// Memory was wanting.
    #[error("out of memory")]
    Memory,
}

impl From<AllocError> for TextFault {
    ghost from_gives = { λ _ fault. fault ≡ Memory };

    fn from(_error: AllocError) -> TextFault {
        TextFault::Memory
    }
}

impl Text {
    /// The text that the bytes spell. `NotUtf8` exactly where they aren't UTF-8.
    pub fn new(alloc: Global, bytes: &[u8]) -> Result<Text, TextFault>
        ensures ok { IfOk result (λ text. (text ≡ bytes.now) × IsUtf8 bytes.now) }
        ensures refused { IsErrOf result TextFault.NotUtf8 ↔ ¬ (IsUtf8 bytes.now) }
    {
        match str::from_utf8(bytes) {
            Ok(text) => Ok(Text {
                text: String::from_str(alloc, text)?,
            }),
            Err(_) => Err(TextFault::NotUtf8),
        }
    }

    /// The same text once more.
    pub fn copy(&self, alloc: Global) -> Result<Text, NoMemory>
        ensures { IfOk result (λ text. text ≡ self.now) }
    {
        Ok(Text {
            text: String::from_str(alloc, self.text.as_str())?,
        })
    }

    /// The same bytes.
    pub fn as_str(&self) -> &str
        ensures { result.now ≡ self.now }
    {
        self.text.as_str()
    }
}
