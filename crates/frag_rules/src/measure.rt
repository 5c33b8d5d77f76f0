ghost use Rattle.std.specs.Prelude.{◌≡◌, ◌&&◌, ◌+◌, ◌-◌, ◌*◌, ◌∷◌, ◌^◌, IfOk, Option, is_none, map, nat_le, option_map, option_and_then, unwrap_or, ℕ};
ghost use Rattle.std.specs.List.{list_all};
ghost use Rattle.frag_sem.specs.AddressEnds.{addresses_fit, end_fits};
ghost use Rattle.frag_sem.specs.Modules.{blocks_in, module_of};
ghost use Rattle.frag_tree.specs.declared.block.Element.{Element};
ghost use Rattle.frag_tree.specs.Trees.{block_tree, crate_tree, in_line, module_tree, one_block, one_register};
ghost use Rattle.frag_rules.specs.Gathering.{blocks_at};
ghost use Rattle.frag_rules.specs.Insides.{found_inside};
ghost use Rattle.frag_rules.specs.Measures.{access_cut, accessors_cut, count_found, end_behind_last, end_found, last_from, last_of, measure_seen, measured, place_found, size_fits, HasLaid, Knows};
ghost use Rattle.frag_rules.specs.Naming.{named_in};

use crate::block::{accessors_of, fields_of};
use crate::extent::{Room, later, plus, round_up, times};
use crate::inside::Inside;
use crate::layout::{Layout, element_room, layout_of};
use crate::named::{Named, by_name};
use frag_tree::{Access, Block, Body, Element, FieldType, Module, RegisterModule, StructField};
use pac_base::{NoMemory, Width};
use std::alloc::Global;

/// What a module takes, and where the last register ends to which its accessors lead, in bytes from its start; no end
/// where they lead to none.
#[derive(Clone, Copy)]
pub struct Measure {
    pub room: Room,
    pub end: Option<u128>,
}

/// How far the last member stands behind the start of a block; none where there are no members.
fn last_from(first: u128, step: u128, count: Option<u64>) -> Option<u128>
    ensures { result ≡ last_from first step count }
{
    match count {
        None => Some(plus(first, 0)),
        Some(count) => {
            if 1 <= count {
                Some(plus(first, times(count - 1, step)))
            } else {
                None
            }
        }
    }
}

/// How many members a field has that is an array.
fn type_count(field: Option<&&StructField>) -> Option<u64>
    ensures { result ≡ count_found (option_map (λ found. found.now.now) field.entry) }
{
    match field {
        Some(field) => match &field.holds {
            FieldType::Array { count, .. } => Some(*count),
            FieldType::One(_) => None,
            FieldType::Gap { .. } => None,
        },
        None => None,
    }
}

/// The place of a field, or the start where it isn't there.
fn place_of(layout: &Layout<'_>, field: &[u8]) -> u128
    ensures { result ≡ unwrap_or (place_found layout.now field.now) 0 }
{
    layout.places.get(field).copied().unwrap_or(0)
}

/// How far the last member of an accessor stands behind the start of the block.
fn last_of(
    fields: &Named<'_, &StructField>,
    layout: &Layout<'_>,
    size: u128,
    body: &Body,
) -> Option<u128>
    ensures { result ≡ last_of (named_in fields.now) (place_found layout.now) size body.now }
{
    match body {
        Body::Field { field } => last_from(place_of(layout, field.bytes()), 0, None),
        Body::Member { field } => last_from(
            place_of(layout, field.bytes()),
            size,
            type_count(fields.get(field.bytes())),
        ),
        Body::At { offset } => last_from(u128::from(*offset), 0, None),
        Body::AtIndex {
            offset,
            stride,
            count,
        } => last_from(u128::from(*offset), u128::from(*stride), Some(*count)),
    }
}

/// An end behind a last member.
fn end_behind_last(last: Option<u128>, end: Option<u128>) -> Option<u128>
    ensures { result ≡ end_behind_last last end }
{
    match (last, end) {
        (Some(last), Some(end)) => Some(plus(last, end)),
        (Some(_), None) => None,
        (None, _) => None,
    }
}

/// The end in the module of an element.
fn end_in(inside: &Inside<'_, Measure>, element: &Element) -> Option<u128>
    ensures { result ≡ end_found (found_inside inside.now element.now) }
{
    match inside.get(element) {
        Some(measure) => measure.end,
        None => None,
    }
}

/// The greatest end behind an accessor.
fn access_end(
    fields: &Named<'_, &StructField>,
    layout: &Layout<'_>,
    inside: &Inside<'_, Measure>,
    access: &Access,
) -> Option<u128>
    ensures { result ≡ access_cut (named_in fields.now) (place_found layout.now) (found_inside inside.now) access.now }
{
    let size = element_room(inside, &access.element).size;
    end_behind_last(
        last_of(fields, layout, size, &access.body),
        end_in(inside, &access.element),
    )
}

/// The greatest end behind all accessors.
fn accessors_end(
    fields: &Named<'_, &StructField>,
    layout: &Layout<'_>,
    inside: &Inside<'_, Measure>,
    accessors: &[Access],
) -> Option<u128>
    ensures { result ≡ accessors_cut (named_in fields.now) (place_found layout.now) (found_inside inside.now) accessors.now }
{
    let mut greatest = None;
    let mut rest = accessors;
    while let Some((first, others)) = rest.split_first() {
        greatest = later(greatest, access_end(fields, layout, inside, first));
        rest = others;
    }
    greatest
}

/// A register module.
pub fn measure_register(unit: &RegisterModule) -> Measure
    ensures { measure_seen result ≡ measured (one_register unit.now) }
{
    Measure {
        room: Room {
            size: u128::from(unit.word.bytes()),
            align: unit.word,
        },
        end: Some(u128::from(unit.word.bytes())),
    }
}

/// A block whose modules are measured and whose struct is laid out.
pub fn measure_laid(
    block: &Block,
    inside: &Inside<'_, Measure>,
    fields: &Named<'_, &StructField>,
    layout: &Layout<'_>,
) -> Measure
    ensures { HasLaid (block_tree block.now) inside.now fields.now layout.now → measure_seen result ≡ measured (one_block (block_tree block.now)) }
{
    Measure {
        room: Room {
            size: round_up(layout.end, layout.align),
            align: layout.align,
        },
        end: accessors_end(fields, layout, inside, accessors_of(block)),
    }
}

/// A block whose modules are measured.
fn measure_own(
    alloc: Global,
    block: &Block,
    inside: &Inside<'_, Measure>,
) -> Result<Measure, NoMemory>
    ensures { IfOk result (λ measure. Knows inside.now (block_tree block.now).inside → measure_seen measure ≡ measured (one_block (block_tree block.now))) }
{
    let layout = layout_of(alloc, inside, fields_of(block))?;
    let fields = by_name(alloc, fields_of(block))?;
    Ok(measure_laid(block, inside, &fields, &layout))
}

/// Which blocks have been measured: how many, and the first that is too large, by how many stand before it.
#[derive(Clone, Copy)]
pub(crate) struct Sizes {
    pub passed: usize,
    pub large: Option<usize>,
}

impl Sizes {
    /// Notes the size of a block.
    fn note(&mut self, number: usize, size: u128)
        ensures { is_none self.new.large ≡ (is_none self.old.large && nat_le size (2 ^ 64)) }
    {
        if size > 0x1_0000_0000_0000_0000 {
            self.large = Some(number);
        }
    }
}

/// A block module, and the sizes of all blocks in it.
#[cycle(measure)]
pub(crate) fn measure_block(
    block: &Block,
    alloc: Global,
    sizes: &mut Sizes,
) -> Result<Measure, NoMemory>
    ensures measure { IfOk result (λ measure. measure_seen measure ≡ measured (one_block (block_tree block.now))) }
    ensures sizes { IfOk result (λ _. is_none sizes.new.large ≡ (is_none sizes.old.large && list_all size_fits (blocks_at (one_block (block_tree block.now))))) }
{
    let number = sizes.passed;
    sizes.passed = number.saturating_add(1);
    let inside = measure_modules(&block.modules, alloc, sizes)?;
    let measure = measure_own(alloc, block, &inside)?;
    sizes.note(number, measure.room.size);
    Ok(measure)
}

/// All modules of one parent.
#[cycle(measure)]
fn measure_modules<'a>(
    modules: &'a [Module],
    alloc: Global,
    sizes: &mut Sizes,
) -> Result<Inside<'a, Measure>, NoMemory>
    ensures measure { IfOk result (λ inside. Knows inside (in_line (map module_tree modules.now))) }
    ensures sizes { IfOk result (λ _. is_none sizes.new.large ≡ (is_none sizes.old.large && list_all size_fits (blocks_in (in_line (map module_tree modules.now))))) }
{
    let mut inside = Inside::new(alloc);
    for unit in modules {
        let measure = measure_module(unit, alloc, sizes)?;
        inside.keep(unit, measure)?;
    }
    Ok(inside)
}

#[cycle(measure)]
fn measure_module(unit: &Module, alloc: Global, sizes: &mut Sizes) -> Result<Measure, NoMemory>
    ensures measure { IfOk result (λ measure. measure_seen measure ≡ measured (module_tree unit.now)) }
    ensures sizes { IfOk result (λ _. is_none sizes.new.large ≡ (is_none sizes.old.large && list_all size_fits (blocks_at (module_tree unit.now)))) }
{
    match unit {
        Module::Block(block) => measure_block(block, alloc, sizes),
        Module::Register(register) => Ok(measure_register(register)),
    }
}
