ghost use Rattle.std.specs.Prelude.{◌≡◌, ◌+◌, ℕ, List, option_map, unwrap_or};
ghost use Rattle.frag_sem.specs.AddressEnds.{cut};
ghost use Rattle.frag_sem.specs.CallPlaces.{admits, leads, offset_of, register_at};
ghost use Rattle.frag_sem.specs.Layout.{element_size, place_of};
ghost use Rattle.frag_tree.specs.Trees.{block_tree, crate_tree, one_block};
ghost use Rattle.frag_index.specs.declared.site.Site.{Site as SiteRow};
ghost use Rattle.frag_index.specs.Sites.{IsIndex, IsNumbered, SiteFits, inner_tree};
ghost use Rattle.frag_index.specs.Walks.{Goes, Passes, StartsBelow, found_seen, small};

use crate::index::Index;
use crate::site::{Inner, Site};
use crate::unit::Unit;
use frag_rules::element_room;
use frag_tree::{Access, Body, Call, Place};

/// A register at its address.
#[derive(Clone, Copy)]
pub struct Found<'i, 'a> {
    /// The address of its first byte.
    pub address: u64,
    /// Its module.
    pub register: &'i Unit<'a>,
}

/// A module that starts at an address.
#[derive(Clone, Copy)]
pub(crate) struct Stand<'i, 'a> {
    pub start: u64,
    pub unit: &'i Inner<'a>,
}

/// Whether an index stands just where there is a count, and is below it.
fn admits(count: Option<u64>, index: Option<u64>) -> bool
    ensures { result ≡ admits count index }
{
    match (count, index) {
        (None, None) => true,
        (None, Some(_)) => false,
        (Some(_), None) => false,
        (Some(count), Some(index)) => index < count,
    }
}

/// The place of the field of a name, 0 where there is none; beyond 2^64, any number that is so large.
fn place_of(site: &Site<'_>, field: &[u8]) -> u128
    ensures { (sites : List SiteRow) → SiteFits sites site.now → result ≡ cut (unwrap_or (place_of (block_tree site.now.block.now) field.now) 0) }
{
    site.layout.places.get(field).copied().unwrap_or(0)
}

/// The size of an element, or any number that is so large.
fn element_size(site: &Site<'_>, access: &Access) -> u128
    ensures { (sites : List SiteRow) → SiteFits sites site.now → result ≡ cut (element_size (block_tree site.now.block.now) access.now.element) }
{
    element_room(&site.within.measures, &access.element).size
}

/// How far behind the start of a block an accessor leads; at 2^64 and above, any number that is so large.
fn offset_of(site: &Site<'_>, access: &Access, index: Option<u64>) -> u128
    ensures { (sites : List SiteRow) → SiteFits sites site.now → (start : ℕ) → small (start + result) ≡ small (start + offset_of (block_tree site.now.block.now) access.now index) }
{
    let index = index.unwrap_or(0) as u128;
    match &access.body {
        Body::Field { field } => place_of(site, field.bytes()),
        Body::Member { field } => place_of(site, field.bytes()).saturating_add(index.saturating_mul(
            element_size(site, access),
        )),
        Body::At { offset } => *offset as u128,
        Body::AtIndex { offset, stride, .. } => {
            (*offset as u128).saturating_add(index.saturating_mul(*stride as u128))
        }
    }
}

/// So far behind an address, where that is below 2^64.
fn moved(start: u64, offset: u128) -> Option<u64>
    ensures { result ≡ small (start + offset) }
{
    match u64::try_from(offset) {
        Ok(offset) => start.checked_add(offset),
        Err(_) => None,
    }
}

/// Through an accessor of a block.
fn through<'i, 'a>(
    site: &'i Site<'a>,
    step: &Call,
    access: &Access,
    start: u64,
) -> Option<Stand<'i, 'a>>
    ensures { (sites : List SiteRow) → SiteFits sites site.now → Passes sites result (block_tree site.now.block.now) start step.now access.now }
{
    if !admits(site.count_of(access), step.index) {
        return None;
    }
    let unit = site.within.units.get(&access.element)?;
    let start = moved(start, offset_of(site, access, step.index))?;
    Some(Stand { start, unit })
}

/// Through the accessor of a block that a step names.
fn into_block<'i, 'a>(site: &'i Site<'a>, step: &Call, start: u64) -> Option<Stand<'i, 'a>>
    ensures { (sites : List SiteRow) → SiteFits sites site.now → Goes sites result (one_block (block_tree site.now.block.now)) start step.now }
{
    match site.accessors.get(step.name.bytes()) {
        Some(access) => through(site, step, *access, start),
        None => None,
    }
}

/// Through the accessor that a step names.
fn into<'i, 'a>(index: &'i Index<'a>, at: Stand<'i, 'a>, step: &Call) -> Option<Stand<'i, 'a>>
    requires index { IsIndex index.now }
    requires numbered { IsNumbered index.now.tops.sites.items at.unit.now }
    ensures { Goes index.now.tops.sites.items result (inner_tree at.entry.unit.now) at.entry.start step.now }
{
    match at.unit {
        Inner::Register(_) => None,
        Inner::Block(_, number) => match index.site_at(*number) {
            Some(site) => into_block(site, step, at.start),
            None => None,
        },
    }
}

/// The register to which accessors lead from a module.
fn leads<'i, 'a>(index: &'i Index<'a>, from: Stand<'i, 'a>, steps: &[Call]) -> Option<Found<'i, 'a>>
    requires index { IsIndex index.now }
    requires numbered { IsNumbered index.now.tops.sites.items from.unit.now }
    ensures { StartsBelow (leads steps.now (inner_tree from.entry.unit.now) from.entry.start) → option_map found_seen result ≡ leads steps.now (inner_tree from.entry.unit.now) from.entry.start }
{
    let mut at = from;
    let mut rest = steps;
    while let Some((step, others)) = rest.split_first() {
        at = into(index, at, step)?;
        rest = others;
    }
    match at.unit {
        Inner::Register(register) => Some(Found {
            address: at.start,
            register,
        }),
        Inner::Block(_, _) => None,
    }
}

/// The register of a place, with its address. Takes no memory.
pub fn register_at<'i, 'a>(index: &'i Index<'a>, place: &Place) -> Option<Found<'i, 'a>>
    requires { IsIndex index.now }
    ensures { StartsBelow (register_at (crate_tree index.now.krate.now) place.now) → option_map found_seen result ≡ register_at (crate_tree index.now.krate.now) place.now }
{
    let slot = index.slot(place.slot.bytes())?;
    let unit = index.top(slot.block.bytes())?;
    leads(
        index,
        Stand {
            start: slot.address,
            unit,
        },
        place.steps.as_slice(),
    )
}
