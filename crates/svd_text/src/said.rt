ghost use Rattle.std.specs.Prelude.{◌≡◌, ◌++◌, IfOk, encode_utf8};
ghost use Rattle.svd_text.specs.Views.{said_of};

use std::alloc::{AllocError, Global};

/// The text that an element says.
#[derive(Drop)]
pub enum Said<'a> {
    /// As it stands in the description.
    Borrowed(&'a [u8]),
    /// Put together where references or comments stand in it.
    Owned(Vec<u8>),
}

impl<'a> Said<'a> {
    /// The bytes of the text.
    pub fn bytes(&self) -> &[u8]
        ensures { result.now ≡ said_of self.now }
    {
        match self {
            Said::Borrowed(said) => said,
            Said::Owned(said) => said,
        }
    }

    fn into_bytes(self, alloc: Global) -> Result<Vec<u8>, AllocError>
        ensures { IfOk result (λ bytes. bytes.items ≡ said_of self.entry) }
    {
        match self {
            Said::Borrowed(said) => {
                let mut bytes = Vec::new(alloc);
                bytes.extend_from_slice(said)?;
                Ok(bytes)
            }
            Said::Owned(said) => Ok(said),
        }
    }

    /// The same with more text behind it.
    pub fn and_text(self, alloc: Global, more: &'a [u8]) -> Result<Said<'a>, AllocError>
        ensures { IfOk result (λ said. said_of said ≡ said_of self.entry ++ more.now) }
    {
        if self.bytes().is_empty() {
            return Ok(Said::Borrowed(more));
        }
        let mut bytes = self.into_bytes(alloc)?;
        bytes.extend_from_slice(more)?;
        Ok(Said::Owned(bytes))
    }

    /// The same with a character behind it.
    pub fn and_character(self, alloc: Global, scalar: char) -> Result<Said<'a>, AllocError>
        ensures { IfOk result (λ said. said_of said ≡ said_of self.entry ++ encode_utf8 scalar) }
    {
        let mut spelled = String::new(alloc);
        spelled.push(scalar)?;
        let mut bytes = self.into_bytes(alloc)?;
        bytes.extend_from_slice(spelled.as_bytes())?;
        Ok(Said::Owned(bytes))
    }
}
