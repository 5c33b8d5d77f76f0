ghost use Rattle.std.specs.Prelude.{◌≡◌, ℕ, IfOk, List};
ghost use Rattle.std.specs.Borrow.{Bor};
ghost use Rattle.std.specs.List.{list_any};
ghost use Rattle.std.specs.Str.{bytes_eq};
ghost use Rattle.frag_index.specs.Sites.{IsIndex};
ghost use Rattle.frag_sem.specs.PlaceTyping.{call_leads, module_scope};
ghost use Rattle.frag_sem.specs.ScriptTyping.{anything, names_within, Names as Bindings, statement_types, value_types};
ghost use Rattle.frag_sem.specs.TextSurface.{register_calls};
ghost use Rattle.frag_tree.specs.Trees.{crate_tree};
ghost use Rattle.frag_tree.specs.declared.register.RegisterModule.{RegisterModule};
ghost use Rattle.frag_tree.specs.declared.statement.Place.{Place};
ghost use Rattle.frag_tree.specs.declared.statement.Statement.{Statement};
ghost use Rattle.frag_types.specs.Telling.{HaveSame, allowed, alone, bound_behind, chain_leads, is_taken, let_leads, let_of, names_and, names_in, told, told_held, with_bound, with_names};

use crate::chain::chain_types;
use crate::names::{Names, is_reader, is_writer};
use crate::place::{Use, call_leads, is_slot};
use crate::value::value_types;
use crate::value_type::Wanted;
use frag_index::{Index, Unit};
use frag_rules::Named;
use frag_script::ScriptTyping;
use frag_tree::{Link, Place, Statement, Value};
use pac_base::NoMemory;

/// The names that are bound, each with the register that it read.
pub(crate) type Bound<'s, 'i, 'a> = Named<'s, &'i Unit<'a>>;

fn is_bound(bound: &Bound<'_, '_, '_>, name: &[u8]) -> bool
    ensures { result ≡ list_any (λ entry. bytes_eq name.now entry.0) (names_in bound.now) }
{
    bound.get(name).is_some()
}

/// Whether a name is bound, a slot, `r` or `w`.
fn is_taken(index: &Index<'_>, bound: &Bound<'_, '_, '_>, name: &[u8]) -> bool
    requires { IsIndex index.now }
    ensures { result ≡ is_taken (module_scope (crate_tree index.now.krate.now)) (names_in bound.now) name.now }
{
    is_bound(bound, name) || (is_slot(index, name) || (is_reader(name) || is_writer(name)))
}

/// The register that a `let` reads, if it may bind the name.
fn let_leads<'i, 'a>(
    index: &'i Index<'a>,
    bound: &Bound<'_, 'i, 'a>,
    name: &[u8],
    place: &Place,
) -> Result<&'i Unit<'a>, ScriptTyping>
    requires { IsIndex index.now }
    ensures { told (λ unit. unit.now) result ≡ let_leads (crate_tree index.now.krate.now) (names_in bound.now) name.now place.now }
{
    if is_taken(index, bound, name) {
        Err(ScriptTyping::Rebound)
    } else {
        call_leads(index, Use::Read, place)
    }
}

fn reader_within<'i, 'a>(names_reader: bool, unit: &'i Unit<'a>) -> Option<&'i Unit<'a>>
    ensures { (bound : List (List ℕ × Bor RegisterModule)) → names_and result bound ≡ names_within (names_in bound) (register_calls unit.now) names_reader }
{
    if names_reader { Some(unit) } else { None }
}

/// A chain on the register at the end of a place.
#[tactic(auto, unfolding(crate::specs::Telling::chain_leads))]
fn chain_leads<'i, 'a>(
    index: &'i Index<'a>,
    bound: &Bound<'_, 'i, 'a>,
    used: Use,
    place: &Place,
    names_reader: bool,
    chain: &[Link],
) -> Result<(), ScriptTyping>
    requires { IsIndex index.now }
    ensures { told_held result ≡ chain_leads (crate_tree index.now.krate.now) (names_in bound.now) (allowed used) place.now names_reader chain.now }
{
    match call_leads(index, used, place) {
        Ok(unit) => {
            let read = reader_within(names_reader, unit);
            chain_types(&Names { bound, read }, unit, chain)
        }
        Err(kind) => Err(kind),
    }
}

/// A call without a chain.
fn register_leads(index: &Index<'_>, used: Use, place: &Place) -> Result<(), ScriptTyping>
    requires { IsIndex index.now }
    ensures { told_held result ≡ alone (call_leads (allowed used) (crate_tree index.now.krate.now) place.now) }
{
    match call_leads(index, used, place) {
        Ok(_) => Ok(()),
        Err(kind) => Err(kind),
    }
}

fn said(bound: &Bound<'_, '_, '_>, value: &Value) -> Result<(), ScriptTyping>
    ensures { told_held result ≡ value_types (names_in bound.now) anything value.now }
{
    value_types(&Names { bound, read: None }, Wanted::Anything, value)
}

/// What a `let` binds.
fn binding<'i, 'a>(
    read: Result<&'i Unit<'a>, ScriptTyping>,
) -> Result<Option<&'i Unit<'a>>, ScriptTyping>
    ensures { (names : Bindings) (name : List ℕ) (place : Place) → told (bound_behind names (let_of name place)) result ≡ with_bound names name (told (λ unit. unit.now) read.entry) }
{
    match read {
        Ok(unit) => Ok(Some(unit)),
        Err(kind) => Err(kind),
    }
}

/// Nothing is bound.
fn binding_nothing<'i, 'a>(
    _index: &'i Index<'a>,
    typed: Result<(), ScriptTyping>,
) -> Result<Option<&'i Unit<'a>>, ScriptTyping>
    ensures { (names : Bindings) (statement : Statement) → told (bound_behind names statement) result ≡ with_names names (told_held typed) }
{
    match typed {
        Ok(()) => Ok(None),
        Err(kind) => Err(kind),
    }
}

/// A statement types; that of a `let` with the register that its name reads.
pub(crate) fn statement_types<'i, 'a>(
    index: &'i Index<'a>,
    bound: &Bound<'_, 'i, 'a>,
    statement: &Statement,
) -> Result<Option<&'i Unit<'a>>, ScriptTyping>
    requires { IsIndex index.now }
    ensures { told (bound_behind (names_in bound.now) statement.now) result ≡ statement_types (module_scope (crate_tree index.now.krate.now)) (names_in bound.now) statement.now }
{
    match statement {
        Statement::Let { name, place } => binding(let_leads(index, bound, name.bytes(), place)),
        Statement::Write { place, chain } => {
            binding_nothing(
                index,
                chain_leads(index, bound, Use::Write, place, false, chain.as_slice()),
            )
        }
        Statement::WriteWithZero { place, chain } => {
            binding_nothing(
                index,
                chain_leads(index, bound, Use::Write, place, false, chain.as_slice()),
            )
        }
        Statement::Modify {
            place,
            names_reader,
            chain,
        } => binding_nothing(
            index,
            chain_leads(
                index,
                bound,
                Use::Modify,
                place,
                *names_reader,
                chain.as_slice(),
            ),
        ),
        Statement::Reset { place } => binding_nothing(
            index,
            register_leads(index, Use::Write, place),
        ),
        Statement::Say { value } => binding_nothing(index, said(bound, value)),
    }
}

/// Binds the name of a `let` to what it reads.
pub(crate) fn bind<'s, 'i, 'a>(
    bound: &mut Bound<'s, 'i, 'a>,
    statement: &'s Statement,
    read: Option<&'i Unit<'a>>,
) -> Result<(), NoMemory>
    ensures { IfOk result (λ _. HaveSame (bound_behind (names_in bound.old) statement.now read.entry) (names_in bound.new)) }
{
    match (statement, read) {
        (Statement::Let { name, .. }, Some(unit)) => bound.set(name.bytes(), unit),
        _ => Ok(()),
    }
}
