ghost use Rattle.std.specs.Prelude.{◌≡◌, IfOk, option_map};
ghost use Rattle.frag_index.specs.Sites.{IsIndex};
ghost use Rattle.frag_index.specs.Walks.{StartsBelow, found_seen};
ghost use Rattle.frag_sem.specs.CallPlaces.{register_at};
ghost use Rattle.frag_sem.specs.Presets.{called};
ghost use Rattle.frag_tree.specs.Trees.{crate_tree};
ghost use Rattle.frag_tree.specs.declared.statement.Place.{Place as PlaceRow};
ghost use Rattle.frag_eval.specs.Lowered.{AreAll, IsCalled};

use crate::deed::Deed;
use crate::lower::{Lowering, lower_line};
use crate::names::Bound;
use frag_index::{Found, Index, register_at};
use frag_tree::{Place, Script, Statement};
use pac_base::NoMemory;
use std::alloc::Global;

/// The place that a statement calls.
pub(crate) fn called(statement: &Statement) -> Option<&Place>
    ensures { option_map (λ place. place.now) result ≡ called statement.now }
{
    match statement {
        Statement::Let { place, .. } => Some(place),
        Statement::Write { place, .. } => Some(place),
        Statement::WriteWithZero { place, .. } => Some(place),
        Statement::Modify { place, .. } => Some(place),
        Statement::Reset { place } => Some(place),
        Statement::Say { .. } => None,
    }
}

/// The register that a statement calls.
fn called_at<'i, 'a>(index: &'i Index<'a>, statement: &Statement) -> Option<Found<'i, 'a>>
    requires index { IsIndex index.now }
    requires range { (place : PlaceRow) → StartsBelow (register_at (crate_tree index.now.krate.now) place) }
    ensures { IsCalled (crate_tree index.now.krate.now) statement.now (option_map found_seen result) }
{
    match called(statement) {
        Some(place) => register_at(index, place),
        None => None,
    }
}

/// A script in plain numbers, against a crate whose blocks are laid out.
pub(crate) fn lower_script(
    alloc: Global,
    index: &Index<'_>,
    script: &Script,
) -> Result<Vec<Deed>, NoMemory>
    requires index { IsIndex index.now }
    requires range { (place : PlaceRow) → StartsBelow (register_at (crate_tree index.now.krate.now) place) }
    ensures { IfOk result (λ deeds. AreAll (crate_tree index.now.krate.now) script.now deeds.items) }
{
    let mut lowering = Lowering {
        deeds: Vec::new(alloc),
        bound: Bound::new(alloc),
        reads: 0,
    };
    let mut rest = script.lines.as_slice();
    while let Some((line, others)) = rest.split_first() {
        let found = called_at(index, &line.statement);
        lower_line(alloc, &mut lowering, found, line)?;
        rest = others;
    }
    Ok(lowering.deeds)
}
