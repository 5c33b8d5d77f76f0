ghost use Rattle.std.specs.Prelude.{◌≡◌, ◌+◌, ◌++◌, Bool, OnOk, map};
ghost use Rattle.std.specs.List.{flat_map};
ghost use Rattle.frag_words.specs.Lines.{line, line_text, lines_text};
ghost use Rattle.frag_tree.specs.Registers.{calls_lines, number_call_line, opening_pieces, truth_call_line, values_lines};

use crate::line::{Part, deeper, push_line};
use crate::phrase::Phrase;
use crate::register::{NumberCall, TruthCall, Values};
use pac_base::NoMemory;
use pac_io::Page;

/// Appends the blocks of values, in order.
pub(crate) fn push_all_values(
    page: &mut Page,
    depth: usize,
    blocks: &[Values],
) -> Result<(), NoMemory>
    ensures { OnOk result (page.new ≡ page.old ++ lines_text (flat_map (values_lines depth) blocks.now)) }
{
    for block in blocks {
        push_values(page, depth, block)?;
    }
    Ok(())
}

fn push_values(page: &mut Page, depth: usize, block: &Values) -> Result<(), NoMemory>
    ensures { OnOk result (page.new ≡ page.old ++ lines_text (values_lines depth block.now)) }
{
    push_opening(page, depth, block)?;
    push_calls(page, deeper(depth)?, block)?;
    push_line(page, depth, &[Part::Text(Phrase::Closer)])
}

fn push_opening(page: &mut Page, depth: usize, block: &Values) -> Result<(), NoMemory>
    ensures { OnOk result (page.new ≡ page.old ++ line_text (line depth (opening_pieces block.now))) }
{
    match block {
        Values::BitReading { marker, .. } => {
            push_line(
                page,
                depth,
                &[
                    Part::Text(Phrase::BitReaderImpl),
                    Part::Name(marker),
                    Part::Text(Phrase::OpensCalls),
                ],
            )
        }
        Values::FieldReading { marker, width, .. } => {
            push_line(
                page,
                depth,
                &[
                    Part::Text(Phrase::FieldReaderImpl),
                    Part::Name(marker),
                    Part::Text(Phrase::ThenNext),
                    Part::Width(*width),
                    Part::Text(Phrase::OpensCalls),
                ],
            )
        }
        Values::BitWriting { kind, marker, .. } => {
            push_line(
                page,
                depth,
                &[
                    Part::Text(Phrase::WriterImpl),
                    Part::Kind(*kind),
                    Part::Text(Phrase::OfSpecInImpl),
                    Part::Name(marker),
                    Part::Text(Phrase::OpensCalls),
                ],
            )
        }
        Values::FieldWriting {
            marker,
            width,
            bits,
            ..
        } => {
            push_line(
                page,
                depth,
                &[
                    Part::Text(Phrase::FieldWriterImpl),
                    Part::Name(marker),
                    Part::Text(Phrase::ThenNext),
                    Part::Width(*width),
                    Part::Text(Phrase::ThenNext),
                    Part::Decimal(*bits),
                    Part::Text(Phrase::OpensCalls),
                ],
            )
        }
    }
}

fn push_calls(page: &mut Page, depth: usize, block: &Values) -> Result<(), NoMemory>
    ensures { OnOk result (page.new ≡ page.old ++ lines_text (calls_lines depth block.now)) }
{
    match block {
        Values::BitReading { calls, .. } => push_truths(page, depth, true, calls.as_slice()),
        Values::FieldReading { calls, .. } => push_numbers(page, depth, true, calls.as_slice()),
        Values::BitWriting { calls, .. } => push_truths(page, depth, false, calls.as_slice()),
        Values::FieldWriting { calls, .. } => push_numbers(page, depth, false, calls.as_slice()),
    }
}

fn push_truths(
    page: &mut Page,
    depth: usize,
    reads: bool,
    calls: &[TruthCall],
) -> Result<(), NoMemory>
    ensures { OnOk result (page.new ≡ page.old ++ lines_text (map (truth_call_line depth reads) calls.now)) }
{
    for call in calls {
        push_truth(page, depth, reads, call)?;
    }
    Ok(())
}

fn push_truth(page: &mut Page, depth: usize, reads: bool, call: &TruthCall) -> Result<(), NoMemory>
    ensures { OnOk result (page.new ≡ page.old ++ line_text (truth_call_line depth reads call.now)) }
{
    let name = Part::Name(&call.name);
    let value = Part::Truth(call.value);
    if reads {
        push_line(
            page,
            depth,
            &[
                Part::Text(Phrase::PubFn),
                name,
                Part::Text(Phrase::TestsBit),
                value,
                Part::Text(Phrase::ClosesBody),
            ],
        )
    } else {
        push_line(
            page,
            depth,
            &[
                Part::Text(Phrase::PubFn),
                name,
                Part::Text(Phrase::WritesBit),
                value,
                Part::Text(Phrase::ClosesCall),
            ],
        )
    }
}

fn push_numbers(
    page: &mut Page,
    depth: usize,
    reads: bool,
    calls: &[NumberCall],
) -> Result<(), NoMemory>
    ensures { OnOk result (page.new ≡ page.old ++ lines_text (map (number_call_line depth reads) calls.now)) }
{
    for call in calls {
        push_number(page, depth, reads, call)?;
    }
    Ok(())
}

fn push_number(
    page: &mut Page,
    depth: usize,
    reads: bool,
    call: &NumberCall,
) -> Result<(), NoMemory>
    ensures { OnOk result (page.new ≡ page.old ++ line_text (number_call_line depth reads call.now)) }
{
    let name = Part::Name(&call.name);
    let value = Part::Hexadecimal(call.value);
    if reads {
        push_line(
            page,
            depth,
            &[
                Part::Text(Phrase::PubFn),
                name,
                Part::Text(Phrase::TestsNumber),
                value,
                Part::Text(Phrase::ClosesBody),
            ],
        )
    } else {
        push_line(
            page,
            depth,
            &[
                Part::Text(Phrase::PubFn),
                name,
                Part::Text(Phrase::WritesNumber),
                value,
                Part::Text(Phrase::ClosesCall),
            ],
        )
    }
}
