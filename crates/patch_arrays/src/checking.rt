ghost use Rattle.std.specs.Prelude.{◌≡◌, ◌⊎◌, OnOk, find, map};
ghost use Rattle.patch_sem.specs.Arrays.{first_step, is_uneven, neighbours, ordered_by};
ghost use Rattle.patch_sem.specs.declared.fault.PatchFault.TheVariants.{ArrayUneven, ArrayUnlike, Memory};
ghost use Rattle.patch_arrays.specs.Arranging.{offset_of, placed_step};
ghost use Rattle.patch_arrays.specs.Checks.{Refuses, RefusesUnlike, uneven_fault, uneven_pair};
ghost use Rattle.patch_arrays.specs.Members.{under_key};

use crate::member::Member;
use pac_base::NoMemory;
use patch_sem::PatchFault;
use std::alloc::Global;
use svd_model::Sibling;

/// Puts the members in order by their offsets, those of one offset as they stand.
pub(crate) fn order<M: Member>(members: &mut Vec<(Sibling, M)>) -> Result<(), NoMemory>
    ensures { OnOk result (map (under_key M.seen) members.new.items ≡ ordered_by offset_of (map (under_key M.seen) members.old.items)) }
{
    members.sort_by_key(|entry| entry.1.offset())?;
    Ok(())
}

/// How far the second stands behind the first; 0 where there is no second.
pub(crate) fn first_step<M: Member>(members: &[(Sibling, M)]) -> u128
    ensures { result ≡ first_step (map placed_step (map (under_key M.seen) members.now)) }
{
    let Some((one, others)) = members.split_first() else {
        return 0;
    };
    let Some((other, _)) = others.split_first() else {
        return 0;
    };
    other.1.offset().saturating_sub(one.1.offset())
}

fn is_uneven<M: Member>(step: u128, one: &(Sibling, M), other: &(Sibling, M)) -> bool
    ensures { result ≡ is_uneven step (placed_step (under_key M.seen one.now)) (placed_step (under_key M.seen other.now)) }
{
    let between = other.1.offset().saturating_sub(one.1.offset());
    between == 0 || between != step
}

fn uneven(alloc: Global, line: u32, one: &Sibling, other: &Sibling) -> PatchFault
    ensures { (result ≡ Memory) ⊎ (result ≡ ArrayUneven line one.now.name other.now.name) }
{
    let Ok(first) = one.name.copy(alloc) else {
        return PatchFault::Memory;
    };
    let Ok(second) = other.name.copy(alloc) else {
        return PatchFault::Memory;
    };
    PatchFault::ArrayUneven {
        line,
        first,
        second,
    }
}

fn unlike(alloc: Global, line: u32, one: &Sibling, other: &Sibling) -> PatchFault
    ensures { (result ≡ Memory) ⊎ (result ≡ ArrayUnlike line one.now.name other.now.name) }
{
    let Ok(first) = one.name.copy(alloc) else {
        return PatchFault::Memory;
    };
    let Ok(second) = other.name.copy(alloc) else {
        return PatchFault::Memory;
    };
    PatchFault::ArrayUnlike {
        line,
        first,
        second,
    }
}

/// Refuses members of which two neighbours don't stand at that step, or at none.
pub(crate) fn check_steps<M: Member>(
    alloc: Global,
    line: u32,
    step: u128,
    members: &[(Sibling, M)],
) -> Result<(), PatchFault>
    ensures { Refuses (uneven_fault line) (find (uneven_pair step) (neighbours (map placed_step (map (under_key M.seen) members.now)))) result }
{
    let mut rest = members;
    while let Some((one, others)) = rest.split_first() {
        let Some((other, _)) = others.split_first() else {
            return Ok(());
        };
        if is_uneven(step, one, other) {
            return Err(uneven(alloc, line, &one.0, &other.0));
        }
        rest = others;
    }
    Ok(())
}

/// Refuses members of which one isn't like the first.
pub(crate) fn check_likeness<M: Member>(
    alloc: Global,
    line: u32,
    first: &(Sibling, M),
    others: &[(Sibling, M)],
) -> Result<(), PatchFault>
    ensures { RefusesUnlike M.seen line first.now others.now result }
{
    let mut rest = others;
    while let Some((other, behind)) = rest.split_first() {
        if !first.1.is_like(&other.1) {
            return Err(unlike(alloc, line, &first.0, &other.0));
        }
        rest = behind;
    }
    Ok(())
}
