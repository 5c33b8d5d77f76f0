ghost use Rattle.std.specs.Prelude.{◌≡◌, ◌++◌, IfOk, OnOk, codes, decimal};
ghost use Rattle.std.specs.List.{flat_map};
ghost use Rattle.svd_values.specs.AccessorNames.{without_array_mark};
ghost use Rattle.pac_fault.specs.Counts.{many_text};
ghost use Rattle.pac_fault.specs.FaultTexts.{at_path, bad_text, both_paths, check_text, derive_text, dim_text, fault_line, index_text, kind_text, limit_text, path_text, shown_name, span_text, step_behind, step_text, svd_text, text_of, words_text};

use crate::count_text::push_many;
use crate::fault::{LimitFault, PacFault, WordsFault};
use crate::fragment_text::{push_crate, push_script, push_statements};
use crate::patch_text::{push_block, push_command, push_patch};
use derive_from::DeriveFault;
use dim_expand::DimFault;
use overlap_check::CheckFault;
use pac_base::{NoMemory, Span, Step};
use pac_io::Page;
use pac_words::BusKind;
use std::alloc::Global;
use svd_keys::BadKind;
use svd_reader::SvdFault;

/// The line that tells of the fault: `pac: `, its text, and a line feed.
pub fn fault_line(alloc: Global, fault: &PacFault) -> Result<Page, NoMemory>
    ensures { IfOk result (λ page. page ≡ fault_line fault.now) }
{
    let mut page = Page::new(alloc);
    page.push(b"pac: ")?;
    push_text(&mut page, fault)?;
    page.push(b"\n")?;
    Ok(page)
}

/// Appends the text of the fault.
#[tactic(auto, unfolding(crate::specs::FaultTexts::text_of))]
fn push_text(page: &mut Page, fault: &PacFault) -> Result<(), NoMemory>
    ensures { OnOk result (page.new ≡ page.old ++ text_of fault.now) }
{
    match fault {
        PacFault::Memory => page.push(b"out of memory"),
        PacFault::Words(fault) => push_words(page, fault),
        PacFault::Read { name } => push_pair(page, b"cannot read ", name.as_str().as_bytes()),
        PacFault::Write => page.push(b"cannot write"),
        PacFault::Bus { done } => push_between(page, b"the bus failed after ", *done, b" events"),
        PacFault::Svd(fault) => push_svd(page, fault),
        PacFault::Block(fault) => push_block(page, fault),
        PacFault::Command(fault) => push_command(page, fault),
        PacFault::Patch(fault) => push_patch(page, fault),
        PacFault::Derive(fault) => push_derive(page, fault),
        PacFault::Dim(fault) => push_dim(page, fault),
        PacFault::Check(fault) => push_check(page, fault),
        PacFault::CrateText(fault) => push_crate(page, fault),
        PacFault::Script(fault) => push_script(page, fault),
        PacFault::Limit(fault) => push_limit(page, fault),
    }
}

fn push_pair(page: &mut Page, first: &[u8], second: &[u8]) -> Result<(), NoMemory>
    ensures { OnOk result (page.new ≡ page.old ++ (first.now ++ second.now)) }
{
    page.push(first)?;
    page.push(second)
}

/// Appends a number between two texts.
fn push_between(page: &mut Page, first: &[u8], number: u64, second: &[u8]) -> Result<(), NoMemory>
    ensures { OnOk result (page.new ≡ page.old ++ (first.now ++ (decimal number ++ second.now))) }
{
    page.push(first)?;
    page.decimal(number)?;
    page.push(second)
}

#[tactic(auto, unfolding(crate::specs::FaultTexts::kind_text))]
fn kind_text(kind: BusKind) -> &'static [u8]
    ensures { result.now ≡ kind_text kind }
{
    match kind {
        BusKind::Zero => b"zero",
        BusKind::Memory => b"memory",
        BusKind::Device => b"device",
    }
}

#[tactic(auto, unfolding(crate::specs::FaultTexts::words_text))]
fn push_words(page: &mut Page, fault: &WordsFault) -> Result<(), NoMemory>
    ensures { OnOk result (page.new ≡ page.old ++ words_text fault.now) }
{
    match fault {
        WordsFault::Clap => page.push(
            b"usage: pac list SVD, generate SVD, exec CRATE SCRIPT, run SVD SCRIPT or sample NUMBER COUNT, with --patch P, --strict, --bus zero or memory",
        ),
        WordsFault::BadNumber => page.push(b"bad number"),
        WordsFault::NoBus { kind } => push_pair(page, b"no bus of kind ", kind_text(*kind)),
    }
}

// ---- paths

fn push_index(page: &mut Page, index: Option<u64>) -> Result<(), NoMemory>
    ensures { OnOk result (page.new ≡ page.old ++ index_text index) }
{
    if let Some(index) = index {
        page.push(b"[")?;
        page.decimal(index)?;
        page.push(b"]")?;
    }
    Ok(())
}

/// The name without `[%s]` at its end.
fn without_array_mark(name: &[u8]) -> &[u8]
    ensures { result.now ≡ without_array_mark name.now }
{
    name.strip_suffix(b"[%s]").unwrap_or(name)
}

/// The written name, without the mark of an array where an index stands behind it.
fn shown_name(name: &[u8], index: Option<u64>) -> &[u8]
    ensures { result.now ≡ shown_name name.now index }
{
    match index {
        Some(_) => without_array_mark(name),
        None => name,
    }
}

#[tactic(auto, unfolding(crate::specs::FaultTexts::step_text))]
fn push_step(page: &mut Page, step: &Step) -> Result<(), NoMemory>
    ensures { OnOk result (page.new ≡ page.old ++ step_text step.now) }
{
    page.push(shown_name(step.name.bytes(), step.index))?;
    push_index(page, step.index)
}

fn push_step_behind(page: &mut Page, step: &Step) -> Result<(), NoMemory>
    ensures { OnOk result (page.new ≡ page.old ++ step_behind step.now) }
{
    page.push(b".")?;
    push_step(page, step)
}

fn push_steps(page: &mut Page, steps: &[Step]) -> Result<(), NoMemory>
    ensures { OnOk result (page.new ≡ page.old ++ flat_map step_behind steps.now) }
{
    for step in steps {
        push_step_behind(page, step)?;
    }
    Ok(())
}

/// Appends the steps of a path, joined by points.
#[tactic(auto, unfolding(crate::specs::FaultTexts::path_text))]
fn push_path(page: &mut Page, path: &[Step]) -> Result<(), NoMemory>
    ensures { OnOk result (page.new ≡ page.old ++ path_text path.now) }
{
    match path {
        [] => Ok(()),
        [first, steps @ ..] => {
            push_step(page, first)?;
            push_steps(page, steps)
        }
    }
}

fn push_at(page: &mut Page, path: &[Step], said: &[u8]) -> Result<(), NoMemory>
    ensures { OnOk result (page.new ≡ page.old ++ at_path path.now said.now) }
{
    push_path(page, path)?;
    page.push(said)
}

// ---- descriptions

#[tactic(auto, unfolding(crate::specs::FaultTexts::span_text))]
fn push_span(page: &mut Page, span: Span) -> Result<(), NoMemory>
    ensures { OnOk result (page.new ≡ page.old ++ span_text span) }
{
    page.push(b" at bytes ")?;
    page.decimal(u64::from(span.start))?;
    page.push(b" to ")?;
    page.decimal(u64::from(span.end))
}

fn push_said_at(page: &mut Page, said: &[u8], span: Span) -> Result<(), NoMemory>
    ensures { OnOk result (page.new ≡ page.old ++ (said.now ++ span_text span)) }
{
    page.push(said)?;
    push_span(page, span)
}

#[tactic(auto, unfolding(crate::specs::FaultTexts::bad_text))]
fn push_bad(page: &mut Page, kind: BadKind) -> Result<(), NoMemory>
    ensures { OnOk result (page.new ≡ page.old ++ bad_text kind) }
{
    match kind {
        BadKind::Number => page.push(b"description: bad number"),
        BadKind::Word => page.push(b"description: bad word"),
        BadKind::Name => page.push(b"description: bad name"),
        BadKind::Place => page.push(b"description: bad place"),
        BadKind::Index => page.push(b"description: bad index"),
    }
}

fn push_bad_at(page: &mut Page, kind: BadKind, span: Span) -> Result<(), NoMemory>
    ensures { OnOk result (page.new ≡ page.old ++ (bad_text kind ++ span_text span)) }
{
    push_bad(page, kind)?;
    push_span(page, span)
}

/// Appends a text, a name in it, and where it stands.
fn push_name_at(
    page: &mut Page,
    before: &[u8],
    name: &[u8],
    behind: &[u8],
    span: Span,
) -> Result<(), NoMemory>
    ensures { OnOk result (page.new ≡ page.old ++ (before.now ++ (name.now ++ (behind.now ++ span_text span)))) }
{
    page.push(before)?;
    page.push(name)?;
    push_said_at(page, behind, span)
}

/// Appends a text and a number.
fn push_number(page: &mut Page, said: &[u8], number: u32) -> Result<(), NoMemory>
    ensures { OnOk result (page.new ≡ page.old ++ (said.now ++ decimal number)) }
{
    page.push(said)?;
    page.decimal(u64::from(number))
}

#[tactic(auto, unfolding(crate::specs::FaultTexts::svd_text))]
fn push_svd(page: &mut Page, fault: &SvdFault) -> Result<(), NoMemory>
    ensures { OnOk result (page.new ≡ page.old ++ svd_text fault.now) }
{
    match fault {
        SvdFault::Syntax { at } => push_number(page, b"description: syntax at byte ", *at),
        SvdFault::TooDeep { span } => push_said_at(page, b"description: nesting passes 64", *span),
        SvdFault::UnknownElement { span } => push_said_at(
            page,
            b"description: unknown element",
            *span,
        ),
        SvdFault::DoubleElement { span } => push_said_at(
            page,
            b"description: second element",
            *span,
        ),
        SvdFault::DoubleName { span } => push_said_at(page, b"description: name used twice", *span),
        SvdFault::BadValue { span, kind } => push_bad_at(page, *kind, *span),
        SvdFault::MissingElement { span, key } => push_name_at(
            page,
            b"description: missing ",
            key.as_str().as_bytes(),
            b" in the element",
            *span,
        ),
        SvdFault::TooMany { kind, count } => push_many(page, *kind, *count),
        SvdFault::Memory => page.push(b"out of memory"),
    }
}

// ---- the whole

/// Appends what is wrong with two elements.
fn push_both(page: &mut Page, first: &[Step], second: &[Step], said: &[u8]) -> Result<(), NoMemory>
    ensures { OnOk result (page.new ≡ page.old ++ both_paths first.now second.now said.now) }
{
    push_path(page, first)?;
    page.push(b" and ")?;
    push_at(page, second, said)
}

#[tactic(auto, unfolding(crate::specs::FaultTexts::check_text))]
fn push_check(page: &mut Page, fault: &CheckFault) -> Result<(), NoMemory>
    ensures { OnOk result (page.new ≡ page.old ++ check_text fault.now) }
{
    match fault {
        CheckFault::BadWidth { path } => push_at(page, path.as_slice(), b": size is not 1 to 64"),
        CheckFault::AddressRange { path } => push_at(
            page,
            path.as_slice(),
            b": address passes 64 bits",
        ),
        CheckFault::Misaligned { path } => {
            push_at(
                page,
                path.as_slice(),
                b": address is not a multiple of the width",
            )
        }
        CheckFault::FieldRange { path } => push_at(
            page,
            path.as_slice(),
            b": field passes the register",
        ),
        CheckFault::FieldOverlap { first, second } => {
            push_both(page, first.as_slice(), second.as_slice(), b" overlap")
        }
        CheckFault::RegisterOverlap { first, second } => {
            push_both(page, first.as_slice(), second.as_slice(), b" overlap")
        }
        CheckFault::NameClash { first, second } => push_both(
            page,
            first.as_slice(),
            second.as_slice(),
            b" have one accessor name",
        ),
        CheckFault::Memory => page.push(b"out of memory"),
    }
}

/// Appends a path, and the names that lead to no source.
fn push_missing(page: &mut Page, path: &[Step], names: &[Step]) -> Result<(), NoMemory>
    ensures { OnOk result (page.new ≡ page.old ++ (path_text path.now ++ (codes ": derivedFrom " ++ (path_text names.now ++ codes " is missing")))) }
{
    push_path(page, path)?;
    page.push(b": derivedFrom ")?;
    push_path(page, names)?;
    page.push(b" is missing")
}

#[tactic(auto, unfolding(crate::specs::FaultTexts::derive_text))]
fn push_derive(page: &mut Page, fault: &DeriveFault) -> Result<(), NoMemory>
    ensures { OnOk result (page.new ≡ page.old ++ derive_text fault.now) }
{
    match fault {
        DeriveFault::MissingParent { path, name } => {
            push_missing(page, path.as_slice(), name.as_slice())
        }
        DeriveFault::DeriveCycle { path } => push_at(
            page,
            path.as_slice(),
            b": derivedFrom runs in a circle",
        ),
        DeriveFault::TooDeep { path } => push_at(
            page,
            path.as_slice(),
            b": clusters nest deeper than 64",
        ),
        DeriveFault::TooMany { kind, count } => push_many(page, *kind, *count),
        DeriveFault::Memory => page.push(b"out of memory"),
    }
}

/// Appends a path, how many members its element has, and how many indexes.
fn push_indexes(page: &mut Page, path: &[Step], members: u64, given: u64) -> Result<(), NoMemory>
    ensures { OnOk result (page.new ≡ page.old ++ (path_text path.now ++ (codes ": dim is " ++ (decimal members ++ (codes " and dimIndex gives " ++ decimal given))))) }
{
    push_path(page, path)?;
    page.push(b": dim is ")?;
    page.decimal(members)?;
    page.push(b" and dimIndex gives ")?;
    page.decimal(given)
}

#[tactic(auto, unfolding(crate::specs::FaultTexts::dim_text))]
fn push_dim(page: &mut Page, fault: &DimFault) -> Result<(), NoMemory>
    ensures { OnOk result (page.new ≡ page.old ++ dim_text fault.now) }
{
    match fault {
        DimFault::DimZero { path } => push_at(page, path.as_slice(), b": dim is 0"),
        DimFault::DimTooLong { path, .. } => push_at(page, path.as_slice(), b": dim passes 65536"),
        DimFault::DimNoMark { path } => push_at(
            page,
            path.as_slice(),
            b": dim and %s must stand together",
        ),
        DimFault::DimIndexCount { path, dim, given } => {
            push_indexes(page, path.as_slice(), *dim, *given)
        }
        DimFault::TooMany { kind, count } => push_many(page, *kind, *count),
        DimFault::Memory => page.push(b"out of memory"),
    }
}

#[tactic(auto, unfolding(crate::specs::FaultTexts::limit_text))]
fn push_limit(page: &mut Page, fault: &LimitFault) -> Result<(), NoMemory>
    ensures { OnOk result (page.new ≡ page.old ++ limit_text fault.now) }
{
    match fault {
        LimitFault::FileTooLong { name, limit } => {
            push_pair(page, name.as_str().as_bytes(), b" is longer than ")?;
            page.decimal(*limit)?;
            page.push(b" bytes")
        }
        LimitFault::TooMany { kind, count } => push_many(page, *kind, *count),
        LimitFault::ScriptTooLong { count } => push_statements(page, *count),
    }
}
