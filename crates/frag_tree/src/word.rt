ghost use Rattle.std.specs.Prelude.{◌≡◌};
ghost use Rattle.frag_tree.specs.Numerals.{truth_word, width_word};
ghost use Rattle.frag_tree.specs.Registers.{kind_word};

use crate::register::BitKind;
use pac_base::Width;

/// The type of a number of this width.
pub fn width_word(width: Width) -> &'static [u8]
    ensures { result.now ≡ width_word width }
{
    match width {
        Width::W8 => b"u8",
        Width::W16 => b"u16",
        Width::W32 => b"u32",
        Width::W64 => b"u64",
    }
}

/// The word for a truth.
pub fn truth_word(truth: bool) -> &'static [u8]
    ensures { result.now ≡ truth_word truth }
{
    if truth { b"true" } else { b"false" }
}

/// The writer of a bit of this kind.
pub fn kind_word(kind: BitKind) -> &'static [u8]
    ensures { result.now ≡ kind_word kind }
{
    match kind {
        BitKind::Plain => b"BitWriter",
        BitKind::OneToSet => b"BitWriter1S",
        BitKind::ZeroToClear => b"BitWriter0C",
        BitKind::OneToClear => b"BitWriter1C",
        BitKind::ZeroToSet => b"BitWriter0S",
        BitKind::OneToToggle => b"BitWriter1T",
        BitKind::ZeroToToggle => b"BitWriter0T",
    }
}
