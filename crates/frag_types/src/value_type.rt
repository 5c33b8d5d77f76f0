ghost use Rattle.std.specs.Prelude.{◌≡◌, ◌^◌, nat_lt};
ghost use Rattle.frag_sem.specs.ProxyTypes.{same_width};
ghost use Rattle.frag_sem.specs.ScriptTyping.{is_number, literal_fits, literal_types, same_value_type, type_fits, holds_or};
ghost use Rattle.frag_types.specs.Refusals.{script_kind};
ghost use Rattle.frag_types.specs.Telling.{told_held, type_seen, wanted_seen};
ghost use Rattle.pac_base.specs.Widths.{bits_of};

use frag_script::ScriptTyping;
use pac_base::Width;

/// The type of a value: a number of a width, or a truth.
#[derive(Clone, Copy)]
pub(crate) enum ValueType {
    Number(Width),
    Truth,
}

/// What is wanted of a value: anything, in `say`, where a number has the type u64; or a type.
#[derive(Clone, Copy)]
pub(crate) enum Wanted {
    Anything,
    Just(ValueType),
}

/// A word at which a rule of this kind has to hold.
pub(crate) fn held(kind: ScriptTyping, holds: bool) -> Result<(), ScriptTyping>
    ensures { told_held result ≡ holds_or (script_kind kind) holds }
{
    if holds { Ok(()) } else { Err(kind) }
}

/// Whether both widths are the same.
pub(crate) fn same_width(one: Width, other: Width) -> bool
    ensures { result ≡ same_width one other }
{
    one.bits() == other.bits()
}

impl ValueType {
    /// Whether both types are the same.
    fn same(self, other: ValueType) -> bool
        ensures { result ≡ same_value_type (type_seen self) (type_seen other) }
    {
        match (self, other) {
            (ValueType::Number(one), ValueType::Number(other)) => same_width(one, other),
            (ValueType::Truth, ValueType::Truth) => true,
            (ValueType::Number(_), ValueType::Truth) => false,
            (ValueType::Truth, ValueType::Number(_)) => false,
        }
    }

    /// Whether it is that of a number.
    pub(crate) fn is_number(self) -> bool
        ensures { result ≡ is_number (type_seen self) }
    {
        match self {
            ValueType::Number(_) => true,
            ValueType::Truth => false,
        }
    }
}

/// Whether a number fits so many bits.
pub(crate) fn has_bits(width: Width, value: u64) -> bool
    ensures { result ≡ nat_lt value (2 ^ bits_of width) }
{
    match width {
        Width::W8 => value < 0x100,
        Width::W16 => value < 0x1_0000,
        Width::W32 => value < 0x1_0000_0000,
        Width::W64 => true,
    }
}

impl Wanted {
    /// A value of this type stands where that is wanted.
    pub(crate) fn takes(self, found: ValueType) -> Result<(), ScriptTyping>
        ensures { told_held result ≡ type_fits (wanted_seen self) (type_seen found) }
    {
        match self {
            Wanted::Anything => Ok(()),
            Wanted::Just(wanted) => held(ScriptTyping::WrongType, wanted.same(found)),
        }
    }

    /// A literal has the type that is wanted.
    pub(crate) fn takes_number(self, value: u64) -> Result<(), ScriptTyping>
        ensures { told_held result ≡ literal_types (wanted_seen self) value }
    {
        match self {
            Wanted::Anything => held(ScriptTyping::LiteralRange, has_bits(Width::W64, value)),
            Wanted::Just(ValueType::Number(width)) => {
                held(ScriptTyping::LiteralRange, has_bits(width, value))
            }
            Wanted::Just(ValueType::Truth) => Err(ScriptTyping::WrongType),
        }
    }
}
