ghost use Rattle.std.specs.Prelude.{◌≡◌, IfOk, IfSome, map, option_map};
ghost use Rattle.std.specs.List.{list_any};
ghost use Rattle.std.specs.Str.{bytes_eq};
ghost use Rattle.frag_index.specs.Sites.{IsIndex, IsNumbered, inner_tree};
ghost use Rattle.frag_sem.specs.PlaceTyping.{call_leads, register_with, slot_module, steps_lead};
ghost use Rattle.frag_sem.specs.ScriptTyping.{index_types};
ghost use Rattle.frag_sem.specs.TextSurface.{register_calls};
ghost use Rattle.frag_tree.specs.Trees.{crate_tree};
ghost use Rattle.frag_types.specs.Telling.{allowed, step_leads, told, told_held};

use crate::value_type::held;
use frag_index::{Index, Inner, Unit};
use frag_script::ScriptTyping;
use frag_tree::{Call, Place, RegisterModule};

/// How a statement uses a register.
#[derive(Clone, Copy)]
pub(crate) enum Use {
    /// `read`
    Read,
    /// `write`, `write_with_zero`, `reset`
    Write,
    /// `modify`
    Modify,
}

impl Use {
    /// Whether the register offers the call.
    #[tactic(auto, unfolding(frag_sem::specs::TextSurface::register_calls))]
    fn is_offered(self, unit: &RegisterModule) -> bool
        ensures { result ≡ allowed self (register_calls unit.now) }
    {
        match self {
            Use::Read => unit.readable,
            Use::Write => unit.writable.is_some(),
            Use::Modify => unit.readable && unit.writable.is_some(),
        }
    }
}

/// The module to which accessors lead.
#[derive(Clone, Copy)]
struct Reached<'i, 'a> {
    unit: &'i Inner<'a>,
}

/// An accessor or a field takes an index just where it has a count; and the index is below that.
pub(crate) fn index_fits(count: Option<u64>, index: Option<u64>) -> Result<(), ScriptTyping>
    ensures { told_held result ≡ index_types count index }
{
    match (count, index) {
        (None, None) => Ok(()),
        (None, Some(_)) => Err(ScriptTyping::WrongType),
        (Some(_), None) => Err(ScriptTyping::WrongType),
        (Some(count), Some(index)) => held(ScriptTyping::IndexRange, index < count),
    }
}

/// The module behind one accessor of a place.
#[tactic(auto, unfolding(crate::specs::Telling::step_leads))]
fn step_leads<'i, 'a>(
    index: &'i Index<'a>,
    at: Reached<'i, 'a>,
    step: &Call,
) -> Result<Reached<'i, 'a>, ScriptTyping>
    requires index { IsIndex index.now }
    requires numbered { IsNumbered index.now.tops.sites.items at.unit.now }
    ensures same { told (λ at. inner_tree at.unit.now) result ≡ step_leads (inner_tree at.entry.unit.now) step.now }
    ensures numbered { IfOk result (λ at. IsNumbered index.now.tops.sites.items at.unit.now) }
{
    match index.behind(at.unit, step.name.bytes()) {
        Some(inner) => match index_fits(inner.count, step.index) {
            Ok(()) => Ok(Reached { unit: inner.unit }),
            Err(kind) => Err(kind),
        },
        None => Err(ScriptTyping::NoSuchCall),
    }
}

/// The module at the end of accessors.
fn steps_lead<'i, 'a>(
    index: &'i Index<'a>,
    start: Reached<'i, 'a>,
    steps: &[Call],
) -> Result<Reached<'i, 'a>, ScriptTyping>
    requires index { IsIndex index.now }
    requires numbered { IsNumbered index.now.tops.sites.items start.unit.now }
    ensures { told (λ at. inner_tree at.unit.now) result ≡ steps_lead (inner_tree start.entry.unit.now) steps.now }
{
    let mut at = start;
    let mut rest = steps;
    while let Some((step, others)) = rest.split_first() {
        match step_leads(index, at, step) {
            Ok(inner) => at = inner,
            Err(kind) => return Err(kind),
        }
        rest = others;
    }
    Ok(at)
}

fn register_with<'i, 'a>(used: Use, unit: &'i Inner<'a>) -> Result<&'i Unit<'a>, ScriptTyping>
    ensures { told (λ unit. unit.now) result ≡ register_with (allowed used) (inner_tree unit.now) }
{
    match unit {
        Inner::Register(unit) => {
            if used.is_offered(unit.register()) {
                Ok(unit)
            } else {
                Err(ScriptTyping::NoSuchCall)
            }
        }
        Inner::Block(_, _) => Err(ScriptTyping::NoSuchCall),
    }
}

fn slot_module<'i, 'a>(index: &'i Index<'a>, name: &[u8]) -> Option<&'i Inner<'a>>
    requires { IsIndex index.now }
    ensures same { option_map (λ unit. inner_tree unit.now) result ≡ slot_module (crate_tree index.now.krate.now) name.now }
    ensures numbered { IfSome result (λ unit. IsNumbered index.now.tops.sites.items unit.now) }
{
    match index.slot(name) {
        Some(slot) => index.top(slot.block.bytes()),
        None => None,
    }
}

/// Whether a slot has the name.
pub(crate) fn is_slot(index: &Index<'_>, name: &[u8]) -> bool
    requires { IsIndex index.now }
    ensures { result ≡ list_any (bytes_eq name.now) (map (λ slot. slot.name) (crate_tree index.now.krate.now).slots) }
{
    index.slot(name).is_some()
}

/// The register at the end of a place, which offers the call.
#[tactic(auto, unfolding(frag_sem::specs::PlaceTyping::call_leads))]
pub(crate) fn call_leads<'i, 'a>(
    index: &'i Index<'a>,
    used: Use,
    place: &Place,
) -> Result<&'i Unit<'a>, ScriptTyping>
    requires { IsIndex index.now }
    ensures { told (λ unit. unit.now) result ≡ call_leads (allowed used) (crate_tree index.now.krate.now) place.now }
{
    match slot_module(index, place.slot.bytes()) {
        Some(unit) => match steps_lead(index, Reached { unit }, place.steps.as_slice()) {
            Ok(at) => register_with(used, at.unit),
            Err(kind) => Err(kind),
        },
        None => Err(ScriptTyping::NoSuchName),
    }
}
