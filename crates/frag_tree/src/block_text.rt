ghost use Rattle.std.specs.Prelude.{◌≡◌, ◌+◌, ◌++◌, OnOk, map};
ghost use Rattle.std.specs.List.{flat_map};
ghost use Rattle.frag_words.specs.Lines.{line_text, lines_text, piece_text};
ghost use Rattle.frag_tree.specs.Blocks.{access_line, accessor_lines, array_pieces, body_pieces, element_pieces, field_line, struct_lines, type_pieces};

use crate::access::{Access, Body};
use crate::block::{Element, FieldType, StructField};
use crate::line::{OneLine, Part, deeper, push_each, push_indent, push_line, push_parts};
use crate::phrase::{Phrase, receiver};
use pac_base::NoMemory;
use pac_io::Page;

/// Appends the struct of a block.
pub(crate) fn push_struct(
    page: &mut Page,
    depth: usize,
    fields: &[StructField],
) -> Result<(), NoMemory>
    ensures { OnOk result (page.new ≡ page.old ++ lines_text (struct_lines depth fields.now)) }
{
    push_line(page, depth, &[Part::Text(Phrase::ReprC)])?;
    push_line(page, depth, &[Part::Text(Phrase::OpensStruct)])?;
    push_each(page, deeper(depth)?, fields)?;
    push_line(page, depth, &[Part::Text(Phrase::Closer)])
}

/// Appends the accessors of a block.
pub(crate) fn push_accessors(
    page: &mut Page,
    depth: usize,
    accessors: &[Access],
) -> Result<(), NoMemory>
    ensures { OnOk result (page.new ≡ page.old ++ lines_text (accessor_lines depth accessors.now)) }
{
    push_line(page, depth, &[Part::Text(Phrase::BlockImpl)])?;
    push_each(page, deeper(depth)?, accessors)?;
    push_line(page, depth, &[Part::Text(Phrase::Closer)])
}

impl OneLine for StructField {
    ghost line_at = { field_line };

    #[tactic(auto, using(crate::proofs::Printed::joined), unfolding(frag_words::specs::Lines::line_text))]
    fn push_onto(&self, page: &mut Page, depth: usize) -> Result<(), NoMemory> {
        push_indent(page, depth)?;
        push_parts(page, &[Part::Name(&self.name), Part::Text(Phrase::Colon)])?;
        push_type(page, &self.holds)?;
        page.push(Phrase::Comma.text())?;
        page.push(b"\n")
    }
}

impl OneLine for Access {
    ghost line_at = { access_line };

    #[tactic(auto, using(crate::proofs::Printed::joined), unfolding(frag_words::specs::Lines::line_text))]
    fn push_onto(&self, page: &mut Page, depth: usize) -> Result<(), NoMemory> {
        push_indent(page, depth)?;
        push_parts(
            page,
            &[
                Part::Text(Phrase::PubFn),
                Part::Name(&self.name),
                Part::Text(receiver(self.is_indexed)),
                Part::Text(Phrase::Reference),
            ],
        )?;
        push_element(page, &self.element)?;
        page.push(Phrase::OpensBody.text())?;
        push_body(page, &self.body)?;
        page.push(b"\n")
    }
}

#[tactic(auto, using(crate::proofs::Printed::joined))]
fn push_type(page: &mut Page, holds: &FieldType) -> Result<(), NoMemory>
    ensures { OnOk result (page.new ≡ page.old ++ flat_map piece_text (type_pieces holds.now)) }
{
    match holds {
        FieldType::One(element) => push_element(page, element),
        FieldType::Array { element, count } => push_array(page, element, *count),
        FieldType::Gap { bytes } => {
            push_parts(
                page,
                &[
                    Part::Text(Phrase::OpensGap),
                    Part::Decimal(*bytes),
                    Part::Text(Phrase::ClosesArray),
                ],
            )
        }
    }
}

#[tactic(auto, using(crate::proofs::Printed::joined))]
fn push_array(page: &mut Page, element: &Element, count: u64) -> Result<(), NoMemory>
    ensures { OnOk result (page.new ≡ page.old ++ flat_map piece_text (array_pieces element.now count)) }
{
    page.push(Phrase::OpensArray.text())?;
    push_element(page, element)?;
    push_parts(
        page,
        &[
            Part::Text(Phrase::Semicolon),
            Part::Decimal(count),
            Part::Text(Phrase::ClosesArray),
        ],
    )
}

fn push_element(page: &mut Page, element: &Element) -> Result<(), NoMemory>
    ensures { OnOk result (page.new ≡ page.old ++ flat_map piece_text (element_pieces element.now)) }
{
    match element {
        Element::Register { module } => {
            push_parts(
                page,
                &[
                    Part::Text(Phrase::OpensReg),
                    Part::Name(module),
                    Part::Text(Phrase::ClosesReg),
                ],
            )
        }
        Element::Block { module } => {
            push_parts(page, &[Part::Name(module), Part::Text(Phrase::OfBlock)])
        }
    }
}

fn push_body(page: &mut Page, body: &Body) -> Result<(), NoMemory>
    ensures { OnOk result (page.new ≡ page.old ++ flat_map piece_text (body_pieces body.now)) }
{
    match body {
        Body::Field { field } => {
            push_parts(
                page,
                &[
                    Part::Text(Phrase::FieldOfSelf),
                    Part::Name(field),
                    Part::Text(Phrase::ClosesBody),
                ],
            )
        }
        Body::Member { field } => {
            push_parts(
                page,
                &[
                    Part::Text(Phrase::FieldOfSelf),
                    Part::Name(field),
                    Part::Text(Phrase::ClosesMember),
                ],
            )
        }
        Body::At { offset } => {
            push_parts(
                page,
                &[
                    Part::Text(Phrase::OpensAt),
                    Part::Hexadecimal(*offset),
                    Part::Text(Phrase::ClosesCall),
                ],
            )
        }
        Body::AtIndex {
            offset,
            stride,
            count,
        } => {
            push_parts(
                page,
                &[
                    Part::Text(Phrase::OpensAtIndex),
                    Part::Hexadecimal(*offset),
                    Part::Text(Phrase::ThenNext),
                    Part::Decimal(*stride),
                    Part::Text(Phrase::ThenNext),
                    Part::Decimal(*count),
                    Part::Text(Phrase::ClosesAtIndex),
                ],
            )
        }
    }
}
