ghost use Rattle.std.specs.Prelude.{◌≡◌, IfOk, OnOk};
ghost use Rattle.patch_arrays.specs.Arranging.{is_member};
ghost use Rattle.patch_arrays.specs.Members.{under_key};
ghost use Rattle.patch_arrays.specs.Partings.{IsParted, Takes, next_place};

use crate::member::Member;
use glob_select::Pattern;
use pac_base::NoMemory;
use std::alloc::Global;
use svd_model::Sibling;

/// Children, parted into those that become members and the others.
#[derive(Drop)]
pub(crate) struct Parted<M> {
    /// The members, as they stand.
    pub members: Vec<(Sibling, M)>,
    /// The others, as they stand.
    pub others: Vec<(Sibling, M)>,
    /// How many others stand before the first member.
    pub place: usize,
}

// Where the first of the members stood: here, where there is none yet.
fn next_place<T>(members: &[T], here: usize, place: usize) -> usize
    ensures { result ≡ next_place members.now here place }
{
    match members.split_first() {
        None => here,
        Some(_) => place,
    }
}

/// Takes in the next child.
fn take<M: Member>(
    parted: &mut Parted<M>,
    pattern: &Pattern,
    entry: (Sibling, M),
) -> Result<(), NoMemory>
    ensures { OnOk result (Takes (is_member pattern.now (under_key M.seen entry)) entry parted.old parted.new) }
{
    let is_matched = pattern.matches(entry.0.name.bytes());
    let is_dimmed = entry.1.is_dimmed();
    if is_matched && !is_dimmed {
        parted.place = next_place(parted.members.as_slice(), parted.others.len(), parted.place);
        parted.members.push(entry)?;
    } else {
        parted.others.push(entry)?;
    }
    Ok(())
}

/// Parts the children.
pub(crate) fn part<M: Member>(
    alloc: Global,
    pattern: &Pattern,
    children: Vec<(Sibling, M)>,
) -> Result<Parted<M>, NoMemory>
    ensures { IfOk result (λ parted. IsParted (λ entry. is_member pattern.now (under_key M.seen entry)) children.items parted) }
{
    let mut parted = Parted {
        members: Vec::new(alloc),
        others: Vec::new(alloc),
        place: 0,
    };
    for entry in children {
        take(&mut parted, pattern, entry)?;
    }
    Ok(parted)
}
