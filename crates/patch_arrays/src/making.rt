ghost use Rattle.std.specs.Prelude.{◌≡◌, ◌≤◌, ◌<◌, [], ◌∷◌, ◌++◌, IfOk, drop, length, map, take};
ghost use Rattle.patch_arrays.specs.Arranging.{array_of};
ghost use Rattle.patch_arrays.specs.Makings.{MakesArray, MakesCounted, Passes, behind, capped, key_of, unless_unfit};
ghost use Rattle.patch_arrays.specs.Members.{listed, under_key};
ghost use Rattle.svd_model.specs.Counting.{elements_in, told_count};
ghost use Rattle.svd_rows.specs.Forest.{siblings};

use crate::checking::{check_likeness, check_steps, first_step, order};
use crate::member::Member;
use crate::parting::Parted;
use pac_base::{Name, NoMemory};
use patch_edits::{one_more, without};
use patch_sem::PatchFault;
use std::alloc::Global;
use svd_model::Sibling;

// A step as a description holds it, or the greatest that it holds.
fn capped(step: u128) -> u64
    ensures { result ≡ capped step }
{
    step.min(u128::from(u64::MAX)) as u64
}

/// The array that stands for the members: the first of them under the name, with as many members at the first step.
fn array_of<M: Member>(
    alloc: Global,
    name: &Name,
    members: Vec<(Sibling, M)>,
) -> Result<(Sibling, M), NoMemory>
    requires { 0 < length members.items }
    ensures array { IfOk result (λ made. map (under_key M.seen) (made ∷ []) ≡ array_of capped name.now (map (under_key M.seen) members.items)) }
    ensures key { IfOk result (λ made. made.0 ≡ key_of name.now) }
{
    let count = members.len() as u64;
    let step = capped(first_step(members.as_slice()));
    let mut members = members;
    let (_, mut element) = members.remove(0);
    element.set_dim(count, step);
    let key = Sibling {
        name: name.copy(alloc)?,
        number: 0,
    };
    Ok((key, element))
}

/// Puts an item among others, behind so many of them.
fn put_in<T: Drop>(others: Vec<T>, place: usize, item: T) -> Result<Vec<T>, NoMemory>
    requires { place ≤ length others.items }
    ensures { IfOk result (λ made. made.items ≡ take place others.items ++ (item ∷ drop place others.items)) }
{
    let mut made = others;
    made.insert(place, item)?;
    Ok(made)
}

// Refuses members that stand unevenly, or of which one isn't like the first.
fn check<M: Member>(alloc: Global, line: u32, members: &[(Sibling, M)]) -> Result<(), PatchFault>
    ensures { Passes (unless_unfit line (map (under_key M.seen) members.now)) result }
{
    check_steps(alloc, line, first_step(members), members)?;
    match members.split_first() {
        None => Ok(()),
        Some((first, others)) => check_likeness(alloc, line, first, others),
    }
}

// How many elements these are, with those below them; 2^64 - 1 where there are more.
fn elements_of<M: Member>(members: &[(Sibling, M)]) -> u64
    ensures { result ≡ told_count (elements_in (listed M.seen members.now)) }
{
    let mut total = 0;
    for member in members {
        total = one_more(total, member.1.below());
    }
    total
}

// How many elements the members are behind the first, which stands for them.
fn merged<M: Member>(members: &[(Sibling, M)]) -> u64
    ensures { result ≡ told_count (elements_in (siblings (behind (map (under_key M.seen) members.now)))) }
{
    match members.split_first() {
        None => 0,
        Some((_, others)) => elements_of(others),
    }
}

/// Puts the array that stands for the members among the others, unless they stand unevenly or are unlike.
pub(crate) fn arrange_parted<M: Member>(
    alloc: Global,
    line: u32,
    name: &Name,
    total: &mut u64,
    parted: Parted<M>,
) -> Result<Vec<(Sibling, M)>, PatchFault>
    requires some { 0 < length parted.members.items }
    requires within { parted.place ≤ length parted.others.items }
    ensures made { MakesArray M.seen line name.now parted result }
    ensures counted { MakesCounted M.seen result total.old (parted.members.items ++ parted.others.items) total.new }
{
    let Parted {
        members,
        others,
        place,
    } = parted;
    let mut ordered = members;
    let Ok(_) = order(&mut ordered) else {
        return Err(PatchFault::Memory);
    };
    check(alloc, line, ordered.as_slice())?;
    *total = without(*total, merged(ordered.as_slice()));
    let Ok(array) = array_of(alloc, name, ordered) else {
        return Err(PatchFault::Memory);
    };
    let Ok(made) = put_in(others, place, array) else {
        return Err(PatchFault::Memory);
    };
    Ok(made)
}
