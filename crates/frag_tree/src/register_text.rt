ghost use Rattle.std.specs.Prelude.{◌≡◌, ◌+◌, ◌++◌, OnOk, map};
ghost use Rattle.std.specs.List.{flat_map};
ghost use Rattle.frag_words.specs.Lines.{line, line_text, lines_text, piece_text};
ghost use Rattle.frag_tree.specs.Parts.{piece_of};
ghost use Rattle.frag_tree.specs.Registers.{head_lines, marker_line, part_lines, readable_lines, reader_line, readers_lines, register_lines, reset_line, spot_pieces, writable_line, writable_lines, writer_line, writers_lines};

use crate::identifier::Identifier;
use crate::line;
use crate::line::{OneLine, Part, deeper, push_each, push_indent, push_line};
use crate::phrase::{Phrase, receiver, receiver_mut};
use crate::register::{
    Constant, ReadForm, Reader, RegisterModule, Spot, Writable, WriteForm, Writer,
};
use crate::values_text::push_all_values;
use pac_base::{NoMemory, Seq};
use pac_io::Page;

/// Appends a register module.
#[tactic(auto, unfolding(crate::specs::Registers::register_lines))]
pub(crate) fn push_register(
    page: &mut Page,
    depth: usize,
    register: &RegisterModule,
) -> Result<(), NoMemory>
    ensures { OnOk result (page.new ≡ page.old ++ lines_text (register_lines depth register.now)) }
{
    push_line(
        page,
        depth,
        &[
            Part::Text(Phrase::PubMod),
            Part::Name(&register.name),
            Part::Text(Phrase::OpensModule),
        ],
    )?;
    push_parts(page, deeper(depth)?, register)?;
    push_line(page, depth, &[Part::Text(Phrase::Closer)])
}

fn push_parts(page: &mut Page, depth: usize, register: &RegisterModule) -> Result<(), NoMemory>
    ensures { OnOk result (page.new ≡ page.old ++ lines_text (part_lines depth register.now)) }
{
    push_head(page, depth, register)?;
    push_readable(page, depth, register.readable)?;
    push_writable(page, depth, &register.writable)?;
    push_reset(page, depth, &register.reset)?;
    push_markers(page, depth, register.markers.as_slice())?;
    push_readers(page, depth, &register.readers)?;
    push_writers(page, depth, &register.writers)?;
    push_all_values(page, depth, register.values.as_slice())
}

fn push_head(page: &mut Page, depth: usize, register: &RegisterModule) -> Result<(), NoMemory>
    ensures { OnOk result (page.new ≡ page.old ++ lines_text (head_lines depth register.now)) }
{
    push_line(page, depth, &[Part::Text(Phrase::UsePrelude)])?;
    push_line(page, depth, &[Part::Text(Phrase::SpecStruct)])?;
    push_line(
        page,
        depth,
        &[
            Part::Text(Phrase::OpensSpec),
            Part::Width(register.word),
            Part::Text(Phrase::ClosesSpec),
        ],
    )
}

fn push_readable(page: &mut Page, depth: usize, readable: bool) -> Result<(), NoMemory>
    ensures { OnOk result (page.new ≡ page.old ++ lines_text (readable_lines depth readable)) }
{
    if readable {
        push_line(page, depth, &[Part::Text(Phrase::ReadableImpl)])?;
    }
    Ok(())
}

fn push_writable(page: &mut Page, depth: usize, writable: &Option<Writable>) -> Result<(), NoMemory>
    ensures { OnOk result (page.new ≡ page.old ++ lines_text (writable_lines depth writable.now)) }
{
    match writable {
        Some(masks) => push_masks(page, depth, masks),
        None => Ok(()),
    }
}

fn push_masks(page: &mut Page, depth: usize, masks: &Writable) -> Result<(), NoMemory>
    ensures { OnOk result (page.new ≡ page.old ++ line_text (writable_line depth masks.now)) }
{
    push_line(
        page,
        depth,
        &[
            Part::Text(Phrase::WritableImpl),
            Part::Text(Phrase::ZeroToModify),
            Part::Width(masks.zero_to_modify.width),
            Part::Text(Phrase::Equals),
            Part::Hexadecimal(masks.zero_to_modify.value),
            Part::Text(Phrase::Semicolon),
            Part::Text(Phrase::OneToModify),
            Part::Width(masks.one_to_modify.width),
            Part::Text(Phrase::Equals),
            Part::Hexadecimal(masks.one_to_modify.value),
            Part::Text(Phrase::Semicolon),
            Part::Text(Phrase::Closer),
        ],
    )
}

fn push_reset(page: &mut Page, depth: usize, reset: &Constant) -> Result<(), NoMemory>
    ensures { OnOk result (page.new ≡ page.old ++ line_text (reset_line depth reset.now)) }
{
    push_line(
        page,
        depth,
        &[
            Part::Text(Phrase::ResettableImpl),
            Part::Text(Phrase::ResetValue),
            Part::Width(reset.width),
            Part::Text(Phrase::Equals),
            Part::Hexadecimal(reset.value),
            Part::Text(Phrase::Semicolon),
            Part::Text(Phrase::Closer),
        ],
    )
}

fn push_markers(page: &mut Page, depth: usize, markers: &[Identifier]) -> Result<(), NoMemory>
    ensures { OnOk result (page.new ≡ page.old ++ lines_text (map (marker_line depth) markers.now)) }
{
    for marker in markers {
        push_marker(page, depth, marker)?;
    }
    Ok(())
}

fn push_marker(page: &mut Page, depth: usize, marker: &Identifier) -> Result<(), NoMemory>
    ensures { OnOk result (page.new ≡ page.old ++ line_text (marker_line depth marker.now)) }
{
    push_line(
        page,
        depth,
        &[
            Part::Text(Phrase::PubStruct),
            Part::Name(marker),
            Part::Text(Phrase::ClosesMarker),
        ],
    )
}

fn push_readers(
    page: &mut Page,
    depth: usize,
    readers: &Option<Seq<Reader>>,
) -> Result<(), NoMemory>
    ensures { OnOk result (page.new ≡ page.old ++ lines_text (readers_lines depth readers.now)) }
{
    match readers {
        Some(readers) => {
            push_line(page, depth, &[Part::Text(Phrase::ReadersImpl)])?;
            push_each(page, deeper(depth)?, readers.as_slice())?;
            push_line(page, depth, &[Part::Text(Phrase::Closer)])
        }
        None => Ok(()),
    }
}

fn push_writers(
    page: &mut Page,
    depth: usize,
    writers: &Option<Seq<Writer>>,
) -> Result<(), NoMemory>
    ensures { OnOk result (page.new ≡ page.old ++ lines_text (writers_lines depth writers.now)) }
{
    match writers {
        Some(writers) => {
            push_line(page, depth, &[Part::Text(Phrase::WritersImpl)])?;
            push_each(page, deeper(depth)?, writers.as_slice())?;
            push_line(page, depth, &[Part::Text(Phrase::Closer)])
        }
        None => Ok(()),
    }
}

impl OneLine for Reader {
    ghost line_at = { reader_line };

    fn push_onto(&self, page: &mut Page, depth: usize) -> Result<(), NoMemory> {
        let name = Part::Name(&self.name);
        let marker = Part::Name(&self.marker);
        match &self.form {
            ReadForm::Bit { spot, mask } => {
                push_around(
                    page,
                    depth,
                    &[
                        Part::Text(Phrase::PubFn),
                        name,
                        Part::Text(receiver(spot.is_indexed())),
                        Part::Text(Phrase::OfBitReader),
                        marker,
                        Part::Text(Phrase::NewBitReader),
                    ],
                    spot,
                    &[
                        Part::Text(Phrase::ThenMask),
                        Part::Hexadecimal(*mask),
                        Part::Text(Phrase::ClosesBitReader),
                    ],
                )
            }
            ReadForm::Field { width, spot, mask } => {
                push_around(
                    page,
                    depth,
                    &[
                        Part::Text(Phrase::PubFn),
                        name,
                        Part::Text(receiver(spot.is_indexed())),
                        Part::Text(Phrase::OfFieldReader),
                        marker,
                        Part::Text(Phrase::ThenNext),
                        Part::Width(*width),
                        Part::Text(Phrase::NewFieldReader),
                    ],
                    spot,
                    &[
                        Part::Text(Phrase::ThenMask),
                        Part::Hexadecimal(*mask),
                        Part::Text(Phrase::ThenCast),
                        Part::Width(*width),
                        Part::Text(Phrase::ClosesCall),
                    ],
                )
            }
        }
    }
}

impl OneLine for Writer {
    ghost line_at = { writer_line };

    fn push_onto(&self, page: &mut Page, depth: usize) -> Result<(), NoMemory> {
        let name = Part::Name(&self.name);
        let marker = Part::Name(&self.marker);
        match &self.form {
            WriteForm::Bit { kind, spot } => {
                push_around(
                    page,
                    depth,
                    &[
                        Part::Text(Phrase::PubFn),
                        name,
                        Part::Text(receiver_mut(spot.is_indexed())),
                        Part::Kind(*kind),
                        Part::Text(Phrase::OfSpec),
                        marker,
                        Part::Text(Phrase::ThenBody),
                        Part::Kind(*kind),
                        Part::Text(Phrase::NewOnSelf),
                    ],
                    spot,
                    &[Part::Text(Phrase::ClosesCall)],
                )
            }
            WriteForm::Field { width, bits, spot } => {
                push_around(
                    page,
                    depth,
                    &[
                        Part::Text(Phrase::PubFn),
                        name,
                        Part::Text(receiver_mut(spot.is_indexed())),
                        Part::Text(Phrase::OfFieldWriter),
                        marker,
                        Part::Text(Phrase::ThenNext),
                        Part::Width(*width),
                        Part::Text(Phrase::ThenNext),
                        Part::Decimal(*bits),
                        Part::Text(Phrase::NewFieldWriter),
                    ],
                    spot,
                    &[Part::Text(Phrase::ClosesCall)],
                )
            }
        }
    }
}

/// Appends a line with a spot between its parts.
#[tactic(auto, using(crate::proofs::Printed::joined), unfolding(frag_words::specs::Lines::line_text))]
fn push_around(
    page: &mut Page,
    depth: usize,
    before: &[Part],
    spot: &Spot,
    after: &[Part],
) -> Result<(), NoMemory>
    ensures { OnOk result (page.new ≡ page.old ++ line_text (line depth (map piece_of before.now ++ (spot_pieces spot.now ++ map piece_of after.now)))) }
{
    push_indent(page, depth)?;
    line::push_parts(page, before)?;
    push_spot(page, spot)?;
    line::push_parts(page, after)?;
    page.push(b"\n")
}

fn push_spot(page: &mut Page, spot: &Spot) -> Result<(), NoMemory>
    ensures { OnOk result (page.new ≡ page.old ++ flat_map piece_text (spot_pieces spot.now)) }
{
    match spot {
        Spot::Fixed(place) => line::push_parts(page, &[Part::Decimal(*place)]),
        Spot::Indexed {
            offset,
            step,
            count,
        } => {
            line::push_parts(
                page,
                &[
                    Part::Text(Phrase::OpensAtBit),
                    Part::Decimal(*offset),
                    Part::Text(Phrase::ThenNext),
                    Part::Decimal(*step),
                    Part::Text(Phrase::ThenNext),
                    Part::Decimal(*count),
                    Part::Text(Phrase::ClosesAtBit),
                ],
            )
        }
    }
}
