ghost use Rattle.std.specs.Prelude.{◌≡◌};
ghost use Rattle.frag_sem.specs.ScriptTyping.{chain_types, link_types};
ghost use Rattle.frag_sem.specs.TextSurface.{register_calls};
ghost use Rattle.frag_types.specs.Telling.{names_of, told_held};

use crate::field::write_type;
use crate::names::Names;
use crate::value::{argument_types, value_types};
use crate::value_type::{ValueType, Wanted};
use frag_index::Unit;
use frag_script::ScriptTyping;
use frag_tree::Link;

/// One link of a chain.
fn link_types(
    names: &Names<'_, '_, '_, '_>,
    unit: &Unit<'_>,
    link: &Link,
) -> Result<(), ScriptTyping>
    ensures { told_held result ≡ link_types (names_of names.now) (register_calls unit.now) link.now }
{
    match link {
        Link::Bits { value } => value_types(
            names,
            Wanted::Just(ValueType::Number(unit.word())),
            value,
        ),
        Link::Field {
            field,
            method,
            value,
        } => {
            match write_type(unit, field, method.bytes()) {
                Ok(takes) => argument_types(names, takes, value),
                Err(kind) => Err(kind),
            }
        }
    }
}

/// The links of a chain, in order.
pub(crate) fn chain_types(
    names: &Names<'_, '_, '_, '_>,
    unit: &Unit<'_>,
    chain: &[Link],
) -> Result<(), ScriptTyping>
    ensures { told_held result ≡ chain_types (names_of names.now) (register_calls unit.now) chain.now }
{
    let mut rest = chain;
    while let Some((link, others)) = rest.split_first() {
        match link_types(names, unit, link) {
            Ok(()) => rest = others,
            Err(kind) => return Err(kind),
        }
    }
    Ok(())
}
