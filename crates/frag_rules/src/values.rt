ghost use Rattle.std.specs.Prelude.{◌≡◌, ◌&&◌, ◌++◌, [], ◌∷◌, ◌^◌, IfOk, OnOk, is_none, map, nat_lt, not, true};
ghost use Rattle.std.specs.List.{list_all, list_any};
ghost use Rattle.pac_base.specs.Widths.{bits_of};
ghost use Rattle.frag_sem.specs.CrateTyping.{is_free, same_call, value_calls, values_fit};
ghost use Rattle.frag_sem.specs.Modules.{are_distinct};
ghost use Rattle.frag_sem.specs.ProxyTypes.{value_names, values_type};
ghost use Rattle.frag_rules.specs.Bodies.{misfit};
ghost use Rattle.frag_rules.specs.Keys.{call_key, call_seen, calls_on, calls_seen, key_of, key_seen, same_call_key, same_key, types_seen};
ghost use Rattle.frag_rules.specs.Rules.{register_test};

use crate::parts::calls_in;
use crate::place::earlier;
use crate::prelude::is_free;
use crate::proxy::{CallKey, TypeKey, is_typed, key_of_values, numbers_of, truths_of, types_in};
use crate::register::{has_bits, items_before_values};
use crate::rule::RegisterRule;
use frag_tree::{NumberCall, RegisterModule, TruthCall, Values, Version};
use indexmap::IndexSet;
use pac_base::{NoMemory, Width};
use std::alloc::Global;

/// How many items of a register module stand before one of its blocks of values.
fn items_before_block(unit: &RegisterModule, block: usize) -> usize {
    let mut items = items_before_values(unit);
    for values in unit.values.as_slice().iter().take(block) {
        items = items.saturating_add(calls_in(values)).saturating_add(1);
    }
    items
}

/// A block of values of a register module as an item of it.
fn block_item(unit: &RegisterModule, block: Option<usize>) -> Option<usize>
    ensures { is_none result ≡ is_none block }
{
    match block {
        Some(block) => Some(items_before_block(unit, block)),
        None => None,
    }
}

fn untyped(types: &IndexSet<TypeKey<'_>>, values: &[Values]) -> Option<usize>
    ensures { result ≡ misfit (λ block. list_any (same_key (key_of (values_type block))) (types_seen types.now)) values.now }
{
    values.iter().position(|block| !is_typed(types, block))
}

/// The first block of values that stands on no type of the register.
pub(crate) fn value_types(alloc: Global, unit: &RegisterModule) -> Result<Option<usize>, NoMemory>
    ensures { IfOk result (λ item. is_none item ≡ register_test RegisterRule.ValueTypes Version.One unit.now) }
{
    let types = types_in(alloc, unit)?;
    Ok(block_item(unit, untyped(&types, unit.values.as_slice())))
}

// ---- literals and names

fn literals_fit(width: Width, calls: &[NumberCall]) -> bool
    ensures { result ≡ list_all (λ call. nat_lt call.value (2 ^ bits_of width)) calls.now }
{
    calls.iter().all(|call| has_bits(width, call.value))
}

/// Whether the literals of a block of values fit its type.
fn values_fit(block: &Values) -> bool
    ensures { result ≡ values_fit block.now }
{
    match block {
        Values::BitReading { .. } => true,
        Values::FieldReading { width, calls, .. } => literals_fit(*width, calls.as_slice()),
        Values::BitWriting { .. } => true,
        Values::FieldWriting { width, calls, .. } => literals_fit(*width, calls.as_slice()),
    }
}

fn truths_free(version: Version, calls: &[TruthCall]) -> bool
    ensures { result ≡ list_all (λ call. is_free version call.name) calls.now }
{
    calls.iter().all(|call| is_free(version, call.name.bytes()))
}

fn numbers_free(version: Version, calls: &[NumberCall]) -> bool
    ensures { result ≡ list_all (λ call. is_free version call.name) calls.now }
{
    calls.iter().all(|call| is_free(version, call.name.bytes()))
}

fn both(one: bool, other: bool) -> bool
    ensures { result ≡ (one && other) }
{
    one && other
}

/// Whether no call of a block of values has a name of the prelude.
fn values_free(version: Version, block: &Values) -> bool
    ensures { result ≡ list_all (is_free version) (value_names block.now) }
{
    both(
        truths_free(version, truths_of(block)),
        numbers_free(version, numbers_of(block)),
    )
}

fn block_out_of_range(values: &[Values]) -> Option<usize>
    ensures { result ≡ misfit values_fit values.now }
{
    values.iter().position(|block| !values_fit(block))
}

fn block_of_prelude(version: Version, values: &[Values]) -> Option<usize>
    ensures { result ≡ misfit (λ block. list_all (is_free version) (value_names block)) values.now }
{
    values.iter().position(|block| !values_free(version, block))
}

/// The first of the calls of a block that doesn't fit its type, as an item of the block.
fn literal_item(block: &Values) -> usize {
    match block {
        Values::FieldReading { width, calls, .. } => first_large(*width, calls.as_slice()),
        Values::FieldWriting { width, calls, .. } => first_large(*width, calls.as_slice()),
        Values::BitReading { .. } => 0,
        Values::BitWriting { .. } => 0,
    }
}

fn first_large(width: Width, calls: &[NumberCall]) -> usize {
    match calls.iter().position(|call| !has_bits(width, call.value)) {
        Some(call) => call.saturating_add(1),
        None => 0,
    }
}

/// The first of the calls of a block that has a name of the prelude, as an item of the block.
fn taken_item(version: Version, block: &Values) -> usize {
    let truth = truths_of(block)
        .iter()
        .position(|call| !is_free(version, call.name.bytes()));
    let number = numbers_of(block)
        .iter()
        .position(|call| !is_free(version, call.name.bytes()));
    match earlier(truth, number) {
        Some(call) => call.saturating_add(1),
        None => 0,
    }
}

/// A call of a block of values as an item of the register module.
fn call_item(unit: &RegisterModule, block: usize, call: usize) -> usize {
    items_before_block(unit, block).saturating_add(call)
}

/// The first literal of a block that doesn't fit its type, as an item of the register module.
fn literal_of(unit: &RegisterModule, block: usize) -> usize {
    match unit.values.get(block) {
        Some(values) => call_item(unit, block, literal_item(values)),
        None => 0,
    }
}

/// The first call of a block that has a name of the prelude, as an item of the register module.
fn taken_of(version: Version, unit: &RegisterModule, block: usize) -> usize {
    match unit.values.get(block) {
        Some(values) => call_item(unit, block, taken_item(version, values)),
        None => 0,
    }
}

/// The first literal that doesn't fit the type of its value.
pub(crate) fn value_literals(unit: &RegisterModule) -> Option<usize>
    ensures { is_none result ≡ register_test RegisterRule.ValueLiterals Version.One unit.now }
{
    match block_out_of_range(unit.values.as_slice()) {
        Some(block) => Some(literal_of(unit, block)),
        None => None,
    }
}

/// The first call of a value that has a name of the prelude.
pub(crate) fn value_names(version: Version, unit: &RegisterModule) -> Option<usize>
    ensures { is_none result ≡ list_all (λ block. list_all (is_free version) (value_names block)) unit.now.values }
{
    match block_of_prelude(version, unit.values.as_slice()) {
        Some(block) => Some(taken_of(version, unit, block)),
        None => None,
    }
}

// ---- distinct calls

fn push_truths<'a>(
    calls: &mut Vec<CallKey<'a>>,
    on: TypeKey<'a>,
    truths: &'a [TruthCall],
) -> Result<(), NoMemory>
    ensures { OnOk result (map call_seen calls.new.items ≡ map call_seen calls.old.items ++ map (λ call. (key_seen on.entry, call.name)) truths.now) }
{
    let mut rest = truths;
    while let Some((first, others)) = rest.split_first() {
        let name = first.name.bytes();
        calls.push(CallKey { on, name })?;
        rest = others;
    }
    Ok(())
}

fn push_numbers<'a>(
    calls: &mut Vec<CallKey<'a>>,
    on: TypeKey<'a>,
    numbers: &'a [NumberCall],
) -> Result<(), NoMemory>
    ensures { OnOk result (map call_seen calls.new.items ≡ map call_seen calls.old.items ++ map (λ call. (key_seen on.entry, call.name)) numbers.now) }
{
    let mut rest = numbers;
    while let Some((first, others)) = rest.split_first() {
        let name = first.name.bytes();
        calls.push(CallKey { on, name })?;
        rest = others;
    }
    Ok(())
}

fn push_calls<'a>(calls: &mut Vec<CallKey<'a>>, block: &'a Values) -> Result<(), NoMemory>
    ensures { OnOk result (map call_seen calls.new.items ≡ map call_seen calls.old.items ++ map call_key (calls_on block.now)) }
{
    let on = key_of_values(block);
    push_truths(calls, on, truths_of(block))?;
    push_numbers(calls, on, numbers_of(block))
}

/// The calls of all values of a register, each with the type on which it stands.
fn calls_of<'a>(alloc: Global, unit: &'a RegisterModule) -> Result<Vec<CallKey<'a>>, NoMemory>
    ensures { IfOk result (λ calls. map call_seen calls.items ≡ map call_key (value_calls unit.now)) }
{
    let mut calls = Vec::new(alloc);
    let mut rest = unit.values.as_slice();
    while let Some((first, others)) = rest.split_first() {
        push_calls(&mut calls, first)?;
        rest = others;
    }
    Ok(calls)
}

/// Keeps the call, and says whether it is new.
fn is_new_call<'a>(seen: &mut IndexSet<CallKey<'a>>, call: CallKey<'a>) -> Result<bool, NoMemory>
    ensures new { IfOk result (λ fresh. fresh ≡ not (list_any (same_call_key (call_seen call.entry)) (calls_seen seen.old))) }
    ensures kept { IfOk result (λ fresh. fresh ≡ true → calls_seen seen.new ≡ calls_seen seen.old ++ call_seen call.entry ∷ []) }
{
    Ok(seen.insert(call)?)
}

/// The first call that one before it of the same type and name repeats.
fn first_call_again(alloc: Global, calls: &[CallKey<'_>]) -> Result<Option<usize>, NoMemory>
    ensures { IfOk result (λ again. is_none again ≡ are_distinct same_call_key (map call_seen calls.now)) }
{
    let mut seen = IndexSet::new(alloc);
    for at in 0..calls.len() {
        if !is_new_call(&mut seen, calls[at])? {
            return Ok(Some(at));
        }
    }
    Ok(None)
}

/// A call of a value, told by its number among all calls, as an item of the register module.
fn item_of_call(unit: &RegisterModule, call: usize) -> usize {
    let mut items = items_before_values(unit);
    let mut left = call;
    for values in unit.values.as_slice() {
        let calls = calls_in(values);
        items = items.saturating_add(1);
        if left < calls {
            return items.saturating_add(left);
        }
        items = items.saturating_add(calls);
        left = left.saturating_sub(calls);
    }
    items
}

fn found_call(unit: &RegisterModule, call: Option<usize>) -> Option<usize>
    ensures { is_none result ≡ is_none call }
{
    match call {
        Some(call) => Some(item_of_call(unit, call)),
        None => None,
    }
}

/// The first call of a value that repeats one before it.
pub(crate) fn value_calls(alloc: Global, unit: &RegisterModule) -> Result<Option<usize>, NoMemory>
    ensures { IfOk result (λ item. is_none item ≡ are_distinct same_call (value_calls unit.now)) }
{
    let calls = calls_of(alloc, unit)?;
    let again = first_call_again(alloc, calls.as_slice())?;
    Ok(found_call(unit, again))
}
