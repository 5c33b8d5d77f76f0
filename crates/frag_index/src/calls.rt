ghost use Rattle.std.specs.Prelude.{◌≡◌, IfOk, ℕ, List, None, Some, find, if◌then◌else◌, is_some, option_map};
ghost use Rattle.std.specs.Option.{option_or};
ghost use Rattle.frag_rules.specs.Keys.{Key, call_seen, key_seen, same_call_key};
ghost use Rattle.frag_sem.specs.ProxyTypes.{numbers_on, truths_on};
ghost use Rattle.frag_index.specs.Calls.{FindsCalls, found_call};

use frag_rules::{CallKey, HasName, TypeKey, key_of_values, numbers_of, truths_of};
use frag_tree::{NumberCall, TruthCall, Values};
use indexmap::IndexMap;
use pac_base::NoMemory;
use std::alloc::Global;

/// The call of a name on a type.
pub(crate) fn call_on<'a, T>(
    held: &IndexMap<CallKey<'a>, &'a T>,
    on: TypeKey<'_>,
    name: &[u8],
) -> Option<&'a T>
    ensures { option_map (λ call. call.now) result ≡ found_call held.now (key_seen on.entry, name.now) }
{
    held.get(&CallKey { on, name }).copied()
}

/// Keeps a call, where there is none yet of its name on its type.
fn keep<'a, T>(
    held: &mut IndexMap<CallKey<'a>, &'a T>,
    key: CallKey<'a>,
    call: &'a T,
) -> Result<(), NoMemory>
    ensures { IfOk result (λ _. (wanted : Key × List ℕ) → found_call held.new wanted ≡ option_or (found_call held.old wanted) (if same_call_key wanted (call_seen key.entry) then Some call.now else None)) }
{
    if call_on(held, key.on, key.name).is_some() {
        return Ok(());
    }
    held.insert(key, call)?;
    Ok(())
}

/// Keeps the calls of a block of values, which stand on one type.
fn keep_all<'a, T: HasName>(
    held: &mut IndexMap<CallKey<'a>, &'a T>,
    on: TypeKey<'a>,
    calls: &'a [T],
) -> Result<(), NoMemory>
    ensures { IfOk result (λ _. (wanted : Key × List ℕ) → found_call held.new wanted ≡ option_or (found_call held.old wanted) (find (λ call. same_call_key wanted (key_seen on.entry, T.HasName.name_of call)) calls.now)) }
{
    let mut rest = calls;
    while let Some((first, others)) = rest.split_first() {
        let name = first.own_name();
        keep(held, CallKey { on, name }, first)?;
        rest = others;
    }
    Ok(())
}

/// The calls for truths of some values.
pub(crate) fn truths_in<'a>(
    alloc: Global,
    values: &'a [Values],
) -> Result<IndexMap<CallKey<'a>, &'a TruthCall>, NoMemory>
    ensures { IfOk result (λ held. FindsCalls (λ call. call.name) truths_on values.now held) }
{
    let mut held = IndexMap::new(alloc);
    let mut rest = values;
    while let Some((first, others)) = rest.split_first() {
        keep_all(&mut held, key_of_values(first), truths_of(first))?;
        rest = others;
    }
    Ok(held)
}

/// The calls for numbers of some values.
pub(crate) fn numbers_in<'a>(
    alloc: Global,
    values: &'a [Values],
) -> Result<IndexMap<CallKey<'a>, &'a NumberCall>, NoMemory>
    ensures { IfOk result (λ held. FindsCalls (λ call. call.name) numbers_on values.now held) }
{
    let mut held = IndexMap::new(alloc);
    let mut rest = values;
    while let Some((first, others)) = rest.split_first() {
        keep_all(&mut held, key_of_values(first), numbers_of(first))?;
        rest = others;
    }
    Ok(held)
}
