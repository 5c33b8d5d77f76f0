ghost use Rattle.std.specs.Prelude.{◌≡◌, IfErr, IfOk, option_map};
ghost use Rattle.frag_rules.specs.Rules.{rule_kind};
ghost use Rattle.frag_sem.specs.CrateTyping.{CrateFits};
ghost use Rattle.frag_tree.specs.Trees.{crate_tree};
ghost use Rattle.frag_types.specs.Refusals.{IsCrateRefusal, crate_kind};

use crate::fault::{CrateFault, CrateTyping};
use crate::typed::TypedCrate;
use frag_rules::{Rule, first_broken};
use frag_tree::Crate;
use pac_base::Back;
use std::alloc::Global;

/// The kind of the fault where a rule is broken.
fn kind_of(rule: Rule) -> CrateTyping
    ensures { crate_kind result ≡ rule_kind rule }
{
    match rule {
        Rule::DistinctNames => CrateTyping::DoubleName,
        Rule::SlotModules => CrateTyping::UnknownName,
        Rule::ModulePaths => CrateTyping::UnknownName,
        Rule::BodyFields => CrateTyping::UnknownName,
        Rule::BodyTypes => CrateTyping::WrongType,
        Rule::Counts => CrateTyping::LiteralRange,
        Rule::ConstantTypes => CrateTyping::WrongType,
        Rule::ConstantValues => CrateTyping::LiteralRange,
        Rule::ReaderMarkers => CrateTyping::UnknownName,
        Rule::ReaderPlaces => CrateTyping::LiteralRange,
        Rule::WriterMarkers => CrateTyping::UnknownName,
        Rule::WriterPlaces => CrateTyping::LiteralRange,
        Rule::ValueTypes => CrateTyping::UnknownName,
        Rule::ValueLiterals => CrateTyping::LiteralRange,
        Rule::PreludeNames => CrateTyping::DoubleName,
        Rule::Directions => CrateTyping::WrongType,
        Rule::AddressRange => CrateTyping::TooLarge,
    }
}

/// The byte at which an item of the text starts, or 0 where the crate was not read from a text.
fn byte_of(krate: &Crate, item: usize) -> usize {
    match krate.places.get(item) {
        Some(place) => *place,
        None => 0,
    }
}

/// The crate as one that fits: each typing rule holds. Else it comes back with `Typing`, whose kind is that of the
/// first rule, in their order, that fails anywhere in the crate, and whose byte is that of the first item that
/// breaks it; want of memory is the one other refusal.
pub fn type_crate(alloc: Global, krate: Crate) -> Result<TypedCrate, Back<Crate, CrateFault>>
    ensures same { IfOk result (λ typed. typed ≡ krate) }
    ensures fits { IfOk result (λ typed. CrateFits (crate_tree krate)) }
    ensures kept { IfErr result (λ back. back.state ≡ krate) }
    ensures fault { IfErr result (λ back. IsCrateRefusal (crate_tree krate) back.fault) }
{
    match first_broken(alloc, &krate) {
        Ok(None) => Ok(TypedCrate::new(krate)),
        Ok(Some(broken)) => {
            let at = byte_of(&krate, broken.item);
            Err(Back {
                state: krate,
                fault: CrateFault::Typing {
                    at,
                    kind: kind_of(broken.rule),
                },
            })
        }
        Err(_) => Err(Back {
            state: krate,
            fault: CrateFault::Memory,
        }),
    }
}
