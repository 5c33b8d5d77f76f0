//! Which children of its base each element has no more: those whose key one of its own parts has.
ghost use Rattle.std.specs.Prelude.{◌≡◌, ◌<◌, ◌≤◌, ◌++◌, ℕ, List, [], ◌∷◌, None, Some, true, false, get_or, unwrap_or, length, map, replicate, reverse, set, IfOk, OnOk};
ghost use Rattle.derive_order.specs.Gone.{AreBelow, IsPushed, IsTold, IsWith, IsWithout, Replaces, Stands, base_at, key_of, taken_from, without};
ghost use Rattle.derive_order.specs.Walking.{Goes, HasBasesWithin, HasOrder, IsAt, StandByBases, left_of};
ghost use Rattle.derive_sources.specs.Graphs.{parts_at};
ghost use Rattle.need_order.specs.Children.{items_at};

use need_order::Element;
use pac_base::NoMemory;
use std::alloc::Global;

/// Where a walk over elements is: at one, whose children stand by their keys.
#[derive(Drop)]
pub(crate) struct Walk {
    /// The element at which it is.
    pub current: Option<usize>,
    /// For each key the children of that element which have it.
    pub tops: Vec<Vec<usize>>,
    /// For each element that was met, the children of its base that it has no more.
    pub gone: Vec<Vec<usize>>,
    /// Which elements were met.
    pub done: Vec<bool>,
}

/// The key of an element, 0 where it has none.
fn key_of(keys: &[usize], number: usize) -> usize
    ensures { result ≡ key_of keys.now number }
{
    match keys.get(number) {
        Some(key) => *key,
        None => 0,
    }
}

/// The base of an element.
#[tactic(auto, unfolding(crate::specs::Gone::base_at))]
fn base_of(elements: &[Element], number: usize) -> Option<usize>
    ensures { result ≡ base_at elements.now number }
{
    match elements.get(number) {
        Some(element) => element.base,
        None => None,
    }
}

/// The parts of an element.
#[tactic(auto, unfolding(derive_sources::specs::Graphs::parts_at))]
pub(crate) fn parts_of(elements: &[Element], number: usize) -> &[usize]
    ensures { result.now ≡ parts_at elements.now number }
{
    match elements.get(number) {
        Some(element) => element.parts.as_slice(),
        None => &[],
    }
}

/// Moves what stands under a key behind a list.
fn move_out(tops: &mut Vec<Vec<usize>>, key: usize, taken: &mut Vec<usize>) -> Result<(), NoMemory>
    ensures taken { OnOk result (taken.new.items ≡ taken.old.items ++ items_at tops.old.items key) }
    ensures tops { OnOk result ((id : ℕ) → items_at tops.new.items id ≡ without key (items_at tops.old.items) id) }
    ensures long { OnOk result (length tops.new.items ≡ length tops.old.items) }
{
    match tops.get_mut(key) {
        Some(list) => {
            taken.append(list)?;
            Ok(())
        }
        None => Ok(()),
    }
}

/// Moves what stands under the keys of these behind a list.
fn move_all(
    tops: &mut Vec<Vec<usize>>,
    keys: &[usize],
    parts: &[usize],
    taken: &mut Vec<usize>,
) -> Result<(), NoMemory>
    ensures taken { OnOk result (taken.new.items ≡ taken.old.items ++ taken_from keys.now (items_at tops.old.items) parts.now) }
    ensures tops { OnOk result (IsWithout keys.now parts.now tops.old.items tops.new.items) }
    ensures long { OnOk result (length tops.new.items ≡ length tops.old.items) }
{
    for part in parts {
        move_out(tops, key_of(keys, *part), taken)?;
    }
    Ok(())
}

/// Puts a number under a key.
fn push_at(tops: &mut Vec<Vec<usize>>, key: usize, number: usize) -> Result<(), NoMemory>
    ensures tops { OnOk result (IsPushed key number tops.old.items tops.new.items) }
    ensures long { OnOk result (length tops.new.items ≡ length tops.old.items) }
{
    match tops.get_mut(key) {
        Some(list) => {
            list.push(number)?;
            Ok(())
        }
        None => Ok(()),
    }
}

/// Puts these under their keys.
fn push_all(tops: &mut Vec<Vec<usize>>, keys: &[usize], numbers: &[usize]) -> Result<(), NoMemory>
    ensures tops { OnOk result (IsWith keys.now numbers.now tops.old.items tops.new.items) }
    ensures long { OnOk result (length tops.new.items ≡ length tops.old.items) }
{
    for number in numbers {
        push_at(tops, key_of(keys, *number), *number)?;
    }
    Ok(())
}

/// Lists without an item.
fn empty_lists(alloc: Global, count: usize) -> Result<Vec<Vec<usize>>, NoMemory>
    ensures lists { IfOk result (λ made. (id : ℕ) → items_at made.items id ≡ []) }
    ensures long { IfOk result (λ made. length made.items ≡ count) }
{
    let mut made = Vec::new(alloc);
    for _list in 0..count {
        made.push(Vec::new(alloc))?;
    }
    Ok(made)
}

/// The numbers at a place.
#[tactic(auto, unfolding(need_order::specs::Children::items_at))]
fn list_at(lists: &[Vec<usize>], index: usize) -> &[usize]
    ensures { result.now ≡ items_at lists.now index }
{
    match lists.get(index) {
        Some(list) => list.as_slice(),
        None => &[],
    }
}

impl Walk {
    /// A walk that is at no element.
    fn new(alloc: Global, elements: &[Element], keys: &[usize]) -> Result<Walk, NoMemory>
        ghost children: { ℕ → List ℕ }
        ensures stands { IfOk result (Stands elements.now keys.now children) }
        ensures at { IfOk result (λ walk. IsAt walk None (replicate (length elements.now) false)) }
    {
        Ok(Walk {
            current: None,
            tops: empty_lists(alloc, elements.len())?,
            gone: empty_lists(alloc, elements.len())?,
            done: vec![in alloc; false; elements.len()]?,
        })
    }

    /// Goes down to an element from its base.
    fn enter(
        &mut self,
        alloc: Global,
        elements: &[Element],
        keys: &[usize],
        number: usize,
    ) -> Result<(), NoMemory>
        ghost children: { ℕ → List ℕ }
        requires law { Replaces elements.now keys.now children }
        requires below { AreBelow keys.now (length elements.now) }
        requires stands { Stands elements.now keys.now children self.old }
        requires inside { number < length elements.now }
        requires here { base_at elements.now number ≡ self.old.current }
        ensures stands { OnOk result (Stands elements.now keys.now children self.new) }
        ensures at { OnOk result (IsAt self.new (Some number) (set self.old.done.items number true)) }
    {
        let parts = parts_of(elements, number);
        let mut taken = Vec::new(alloc);
        move_all(&mut self.tops, keys, parts, &mut taken)?;
        push_all(&mut self.tops, keys, parts)?;
        self.gone[number] = taken;
        self.done[number] = true;
        self.current = Some(number);
        Ok(())
    }

    /// Goes up from the element at which it is to its base.
    fn leave(
        &mut self,
        alloc: Global,
        elements: &[Element],
        keys: &[usize],
        number: usize,
    ) -> Result<(), NoMemory>
        ghost children: { ℕ → List ℕ }
        requires law { Replaces elements.now keys.now children }
        requires below { AreBelow keys.now (length elements.now) }
        requires stands { Stands elements.now keys.now children self.old }
        requires here { self.old.current ≡ Some number }
        ensures stands { OnOk result (Stands elements.now keys.now children self.new) }
        ensures at { OnOk result (IsAt self.new (base_at elements.now number) self.old.done.items) }
    {
        let mut old = Vec::new(alloc);
        move_all(&mut self.tops, keys, parts_of(elements, number), &mut old)?;
        push_all(&mut self.tops, keys, list_at(&self.gone, number))?;
        self.current = base_of(elements, number);
        Ok(())
    }
}

/// Whether an element was met, or there is none.
fn is_met(done: &[bool], number: usize) -> bool
    ensures { result ≡ get_or done.now number true }
{
    match done.get(number) {
        Some(met) => *met,
        None => true,
    }
}

/// Where elements stand that have this base: under its number, and under the number of all elements where they have none.
fn seat_of(base: Option<usize>, count: usize) -> usize
    ensures { result ≡ unwrap_or base count }
{
    match base {
        Some(base) => base,
        None => count,
    }
}

/// The elements under their bases.
fn by_bases(alloc: Global, elements: &[Element]) -> Result<Vec<Vec<usize>>, NoMemory>
    ensures { IfOk result (λ made. StandByBases elements.now (length elements.now) made.items) }
{
    let mut made = empty_lists(alloc, elements.len() + 1)?;
    for number in 0..elements.len() {
        push_at(
            &mut made,
            seat_of(base_of(elements, number), elements.len()),
            number,
        )?;
    }
    Ok(made)
}

/// Adds steps down to these.
fn add_steps(todo: &mut Vec<Option<usize>>, numbers: &[usize]) -> Result<(), NoMemory>
    ensures { OnOk result (todo.new.items ≡ todo.old.items ++ map Some numbers.now) }
{
    for number in numbers {
        todo.push(Some(*number))?;
    }
    Ok(())
}

/// One step of a walk: down to an element from its base, if it wasn't met yet, or up.
fn go(
    alloc: Global,
    elements: &[Element],
    keys: &[usize],
    begun: &[Vec<usize>],
    walk: &mut Walk,
    todo: &mut Vec<Option<usize>>,
    step: Option<usize>,
) -> Result<(), NoMemory>
    ghost children: { ℕ → List ℕ }
    requires law { Replaces elements.now keys.now children }
    requires below { AreBelow keys.now (length elements.now) }
    requires bases { HasBasesWithin elements.now }
    requires begun { StandByBases elements.now (length elements.now) begun.now }
    requires stands { Stands elements.now keys.now children walk.old }
    requires goes { Goes elements.now walk.old.done.items walk.old.current (step ∷ reverse todo.old.items) }
    ensures stands { OnOk result (Stands elements.now keys.now children walk.new) }
    ensures goes { OnOk result (Goes elements.now walk.new.done.items walk.new.current (reverse todo.new.items)) }
    ensures less { OnOk result (left_of elements.now walk.new todo.new.items ≤ left_of elements.now walk.old todo.old.items) }
{
    match step {
        Some(number) => {
            if is_met(walk.done.as_slice(), number) {
                return Ok(());
            }
            walk.enter(alloc, elements, keys, number)?;
            todo.push(None)?;
            add_steps(todo, list_at(begun, number))
        }
        None => match walk.current {
            Some(number) => walk.leave(alloc, elements, keys, number),
            None => Ok(()),
        },
    }
}

/// A walk that met all elements.
fn walked(alloc: Global, elements: &[Element], keys: &[usize]) -> Result<Walk, NoMemory>
    ghost children: { ℕ → List ℕ }
    requires law { Replaces elements.now keys.now children }
    requires below { AreBelow keys.now (length elements.now) }
    requires bases { HasBasesWithin elements.now }
    ensures stands { IfOk result (Stands elements.now keys.now children) }
    ensures goes { IfOk result (λ walk. Goes elements.now walk.done.items walk.current []) }
{
    let begun = by_bases(alloc, elements)?;
    let mut walk = Walk::new(alloc, elements, keys)?;
    let mut todo = Vec::new(alloc);
    add_steps(&mut todo, list_at(begun.as_slice(), elements.len()))?;
    while let Some(step) = todo.pop() {
        go(
            alloc,
            elements,
            keys,
            begun.as_slice(),
            &mut walk,
            &mut todo,
            step,
        )?;
    }
    Ok(walk)
}

/// For each element, the children of its base that it has no more, in some order.
pub(crate) fn all_gone(
    alloc: Global,
    elements: &[Element],
    keys: &[usize],
) -> Result<Vec<Vec<usize>>, NoMemory>
    ghost children: { ℕ → List ℕ }
    requires law { Replaces elements.now keys.now children }
    requires below { AreBelow keys.now (length elements.now) }
    requires order { HasOrder elements.now }
    ensures { IfOk result (λ gone. (e : ℕ) → IsTold elements.now keys.now children gone.items e) }
{
    Ok(walked(alloc, elements, keys)?.gone)
}
