ghost use Rattle.std.specs.Prelude.{◌≡◌};
ghost use Rattle.frag_script.specs.FixedWords.{text_of};

use frag_tree::{truth_word, width_word};
use pac_base::Width;

/// A fixed word of scripts.
#[derive(Clone, Copy)]
pub(crate) enum Fixed {
    /// `let`
    Let,
    /// `say`
    Say,
    /// `read`
    Read,
    /// `write`
    Write,
    /// `write_with_zero`
    WriteWithZero,
    /// `modify`
    Modify,
    /// `reset`
    Reset,
    /// `bits`
    Bits,
    /// `as`
    As,
    /// `r`, the reader of a closure
    ReaderName,
    /// `w`, the writer of a closure
    WriterName,
    /// `_`, a reader without a name
    NoName,
    /// `true` or `false`
    Truth(bool),
    /// The type of a number: `u8`, `u16`, `u32` or `u64`
    NumberType(Width),
    /// `=`
    Equals,
    /// `.`
    Dot,
    /// `,`
    Comma,
    /// `|`
    Bar,
    /// `!`
    Negation,
    /// `(`
    Opener,
    /// `)`
    Closer,
    /// `;`
    Semicolon,
}

impl Fixed {
    /// How the word is spelled.
    #[tactic(auto, unfolding(crate::specs::FixedWords::text_of))]
    pub(crate) fn text(self) -> &'static [u8]
        ensures { result.now ≡ text_of self }
    {
        match self {
            Fixed::Let => b"let",
            Fixed::Say => b"say",
            Fixed::Read => b"read",
            Fixed::Write => b"write",
            Fixed::WriteWithZero => b"write_with_zero",
            Fixed::Modify => b"modify",
            Fixed::Reset => b"reset",
            Fixed::Bits => b"bits",
            Fixed::As => b"as",
            Fixed::ReaderName => b"r",
            Fixed::WriterName => b"w",
            Fixed::NoName => b"_",
            Fixed::Truth(truth) => truth_word(truth),
            Fixed::NumberType(width) => width_word(width),
            Fixed::Equals => b"=",
            Fixed::Dot => b".",
            Fixed::Comma => b",",
            Fixed::Bar => b"|",
            Fixed::Negation => b"!",
            Fixed::Opener => b"(",
            Fixed::Closer => b")",
            Fixed::Semicolon => b";",
        }
    }
}
