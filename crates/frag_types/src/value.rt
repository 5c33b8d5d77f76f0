ghost use Rattle.std.specs.Prelude.{◌≡◌, option_map};
ghost use Rattle.frag_sem.specs.ScriptTyping.{argument_types, atom_types, source_type, value_types};
ghost use Rattle.frag_types.specs.Telling.{names_of, told, told_held, type_seen, wanted_seen};

use crate::field::read_type;
use crate::names::Names;
use crate::value_type::{ValueType, Wanted, held};
use frag_script::ScriptTyping;
use frag_tree::{Atom, Source, Value};

/// The type of what a bound name gives.
fn source_type(names: &Names<'_, '_, '_, '_>, source: &Source) -> Result<ValueType, ScriptTyping>
    ensures { told type_seen result ≡ source_type (names_of names.now) source.now }
{
    match source {
        Source::Bits { reader } => match names.get(reader.bytes()) {
            Some(unit) => Ok(ValueType::Number(unit.word())),
            None => Err(ScriptTyping::NoSuchName),
        },
        Source::Field {
            reader,
            field,
            method,
        } => match names.get(reader.bytes()) {
            Some(unit) => read_type(unit, field, method.bytes()),
            None => Err(ScriptTyping::NoSuchName),
        },
    }
}

fn atom_types(
    names: &Names<'_, '_, '_, '_>,
    wanted: Wanted,
    atom: &Atom,
) -> Result<(), ScriptTyping>
    ensures { told_held result ≡ atom_types (names_of names.now) (wanted_seen wanted) atom.now }
{
    match atom {
        Atom::Number(value) => wanted.takes_number(*value),
        Atom::Truth(_) => wanted.takes(ValueType::Truth),
        Atom::Source(source) => {
            let found = source_type(names, source)?;
            wanted.takes(found)
        }
        Atom::Cast { source, width } => {
            let found = source_type(names, source)?;
            held(ScriptTyping::WrongType, found.is_number())?;
            wanted.takes(ValueType::Number(*width))
        }
    }
}

/// A value stands where this is wanted. Behind `!` a truth is wanted, and gives one.
#[tactic(auto, unfolding(frag_sem::specs::ScriptTyping::value_types))]
pub(crate) fn value_types(
    names: &Names<'_, '_, '_, '_>,
    wanted: Wanted,
    value: &Value,
) -> Result<(), ScriptTyping>
    ensures { told_held result ≡ value_types (names_of names.now) (wanted_seen wanted) value.now }
{
    if value.negations == 0 {
        atom_types(names, wanted, &value.atom)
    } else {
        atom_types(names, Wanted::Just(ValueType::Truth), &value.atom)?;
        wanted.takes(ValueType::Truth)
    }
}

/// A method has a value just where it takes one.
pub(crate) fn argument_types(
    names: &Names<'_, '_, '_, '_>,
    takes: Option<ValueType>,
    value: &Option<Value>,
) -> Result<(), ScriptTyping>
    ensures { told_held result ≡ argument_types (names_of names.now) (option_map type_seen takes) value.now }
{
    match (takes, value) {
        (None, None) => Ok(()),
        (None, Some(_)) => Err(ScriptTyping::WrongType),
        (Some(_), None) => Err(ScriptTyping::WrongType),
        (Some(found), Some(value)) => value_types(names, Wanted::Just(found), value),
    }
}
