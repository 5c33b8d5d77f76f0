ghost use Rattle.std.specs.Prelude.{◌≡◌};
ghost use Rattle.frag_token.specs.Signs.{sign_word};

use frag_tree::{BitKind, kind_word, truth_word, width_word};
use pac_base::Width;

/// A word by which a reader tells what it reads next.
#[derive(Clone, Copy)]
pub enum Sign {
    /// `pub`
    Pub,
    /// `impl`
    Impl,
    /// `}`
    Closer,
    /// `#`
    Hash,
    /// `<`
    Less,
    /// `[`
    Bracket,
    /// `;`
    Semicolon,
    /// `,`
    Comma,
    /// `&`
    Reference,
    /// `at`
    At,
    /// `Readable`
    Readable,
    /// `Writable`
    Writable,
    /// `R`
    R,
    /// `W`
    W,
    /// `BitReader`
    BitReader,
    /// `FieldReader`
    FieldReader,
    /// `FieldWriter`
    FieldWriter,
    /// The type of a number of this width: `u8`, `u16`, `u32` or `u64`
    Type(Width),
    /// `true` or `false`
    Truth(bool),
    /// The writer of a bit of this kind, as `BitWriter`
    Kind(BitKind),
}

impl Sign {
    /// The word.
    #[tactic(auto, unfolding(crate::specs::Signs::sign_word))]
    pub fn word(self) -> &'static [u8]
        ensures { result.now ≡ sign_word self }
    {
        match self {
            Sign::Pub => b"pub",
            Sign::Impl => b"impl",
            Sign::Closer => b"}",
            Sign::Hash => b"#",
            Sign::Less => b"<",
            Sign::Bracket => b"[",
            Sign::Semicolon => b";",
            Sign::Comma => b",",
            Sign::Reference => b"&",
            Sign::At => b"at",
            Sign::Readable => b"Readable",
            Sign::Writable => b"Writable",
            Sign::R => b"R",
            Sign::W => b"W",
            Sign::BitReader => b"BitReader",
            Sign::FieldReader => b"FieldReader",
            Sign::FieldWriter => b"FieldWriter",
            Sign::Type(width) => width_word(width),
            Sign::Truth(truth) => truth_word(truth),
            Sign::Kind(kind) => kind_word(kind),
        }
    }
}
