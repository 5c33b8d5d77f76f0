ghost use Rattle.std.specs.Prelude.{◌≡◌, IfOk, OnOk, None, Some, ◌/◌, if◌then◌else◌, max, ℕ, List};
ghost use Rattle.std.specs.Map.{lookup};
ghost use Rattle.std.specs.Option.{option_or};
ghost use Rattle.std.specs.Str.{bytes_eq};
ghost use Rattle.pac_base.specs.Widths.{bits_of};
ghost use Rattle.frag_rules.specs.Insides.{found_inside};
ghost use Rattle.frag_rules.specs.Measures.{LaidOut, end_at, place_at, room_found, room_seen, type_found};

use crate::extent::{Room, cut, plus, round_up, times, wider};
use crate::inside::Inside;
use crate::measure::Measure;
use crate::named::Named;
use frag_tree::{Element, FieldType, StructField};
use pac_base::{NoMemory, Width};
use std::alloc::Global;

/// Where the fields of a struct stand, in bytes from its start: the end of the last, the greatest alignment, and the
/// place of each name.
#[derive(Drop)]
pub struct Layout<'a> {
    pub end: u128,
    pub align: Width,
    pub places: Named<'a, u128>,
}

/// What an element takes.
pub fn element_room(inside: &Inside<'_, Measure>, element: &Element) -> Room
    ensures { room_seen result ≡ room_found (found_inside inside.now element.now) }
{
    match inside.get(element) {
        Some(measure) => measure.room,
        None => Room {
            size: 0,
            align: Width::W8,
        },
    }
}

/// What a type takes.
fn type_room(inside: &Inside<'_, Measure>, holds: &FieldType) -> Room
    ensures { room_seen result ≡ type_found (found_inside inside.now) holds.now }
{
    match holds {
        FieldType::One(element) => element_room(inside, element),
        FieldType::Array { element, count } => {
            let member = element_room(inside, element);
            Room {
                size: times(*count, member.size),
                align: member.align,
            }
        }
        FieldType::Gap { bytes } => Room {
            size: cut(u128::from(*bytes)),
            align: Width::W8,
        },
    }
}

impl<'a> Layout<'a> {
    /// Places a field behind the others.
    fn place(
        &mut self,
        inside: &Inside<'_, Measure>,
        field: &'a StructField,
    ) -> Result<(), NoMemory>
        ensures end { IfOk result (λ _. self.new.end ≡ end_at (type_found (found_inside inside.now)) self.old.end field.now) }
        ensures align { IfOk result (λ _. bits_of self.new.align / 8 ≡ max (bits_of self.old.align / 8) (type_found (found_inside inside.now) field.now.holds).align) }
        ensures places { IfOk result (λ _. (name : List ℕ) → lookup (bytes_eq name) self.new.places ≡ option_or (lookup (bytes_eq name) self.old.places) (if bytes_eq name field.now.name then Some (place_at (type_found (found_inside inside.now)) self.old.end field.now) else None)) }
    {
        let room = type_room(inside, &field.holds);
        let place = round_up(self.end, room.align);
        self.places.keep(field.name.bytes(), place)?;
        self.end = plus(place, room.size);
        self.align = wider(self.align, room.align);
        Ok(())
    }
}

/// The layout of a struct.
pub fn layout_of<'a>(
    alloc: Global,
    inside: &Inside<'_, Measure>,
    fields: &'a [StructField],
) -> Result<Layout<'a>, NoMemory>
    ensures { IfOk result (λ layout. LaidOut (type_found (found_inside inside.now)) fields.now layout) }
{
    let mut layout = Layout {
        end: 0,
        align: Width::W8,
        places: Named::new(alloc),
    };
    let mut rest = fields;
    while let Some((first, others)) = rest.split_first() {
        layout.place(inside, first)?;
        rest = others;
    }
    Ok(layout)
}
