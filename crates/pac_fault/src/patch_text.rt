ghost use Rattle.std.specs.Prelude.{◌≡◌, ◌++◌, OnOk};
ghost use Rattle.pac_fault.specs.PatchTexts.{block_text, command_text, on_patch_line, patch_text, two_names};

use crate::count_text::push_many;
use pac_base::NoMemory;
use pac_io::Page;
use patch_model::CommandFault;
use patch_sem::PatchFault;
use yaml_block::BlockFault;

/// Appends a line of a patch, and what is wrong on it.
fn push_on_line(page: &mut Page, line: u32, said: &[u8]) -> Result<(), NoMemory>
    ensures { OnOk result (page.new ≡ page.old ++ on_patch_line line said.now) }
{
    page.push(b"patch line ")?;
    page.decimal(u64::from(line))?;
    page.push(b": ")?;
    page.push(said)
}

/// The same, where what is wrong has two parts.
fn push_both(page: &mut Page, line: u32, first: &[u8], second: &[u8]) -> Result<(), NoMemory>
    ensures { OnOk result (page.new ≡ page.old ++ on_patch_line line (first.now ++ second.now)) }
{
    push_on_line(page, line, first)?;
    page.push(second)
}

/// Appends a name, and what is said before and behind it.
fn push_name(page: &mut Page, before: &[u8], name: &[u8], behind: &[u8]) -> Result<(), NoMemory>
    ensures { OnOk result (page.new ≡ page.old ++ (before.now ++ (name.now ++ behind.now))) }
{
    page.push(before)?;
    page.push(name)?;
    page.push(behind)
}

/// Appends a line of a patch, and what is wrong there with two names.
fn push_names(
    page: &mut Page,
    line: u32,
    before: &[u8],
    first: &[u8],
    between: &[u8],
    second: &[u8],
    behind: &[u8],
) -> Result<(), NoMemory>
    ensures { OnOk result (page.new ≡ page.old
        ++ two_names line before.now first.now between.now second.now behind.now) }
{
    push_both(page, line, before, first)?;
    push_name(page, between, second, behind)
}

/// Appends why a file is no block text.
#[tactic(auto, unfolding(crate::specs::PatchTexts::block_text))]
pub(crate) fn push_block(page: &mut Page, fault: &BlockFault) -> Result<(), NoMemory>
    ensures { OnOk result (page.new ≡ page.old ++ block_text fault.now) }
{
    match fault {
        BlockFault::Syntax { line } => push_on_line(page, *line, b"syntax"),
        BlockFault::TooDeep { line } => push_on_line(page, *line, b"nesting passes 64"),
        BlockFault::DoubleKey { line } => push_on_line(page, *line, b"key used twice"),
        BlockFault::Memory => page.push(b"out of memory"),
    }
}

/// Appends why a node is no patch.
#[tactic(auto, unfolding(crate::specs::PatchTexts::command_text))]
pub(crate) fn push_command(page: &mut Page, fault: &CommandFault) -> Result<(), NoMemory>
    ensures { OnOk result (page.new ≡ page.old ++ command_text fault.now) }
{
    match fault {
        CommandFault::UnknownCommand { line } => push_on_line(page, *line, b"unknown command"),
        CommandFault::UnknownKey { line } => push_on_line(page, *line, b"unknown key"),
        CommandFault::BadValue { line } => push_on_line(page, *line, b"bad value"),
        CommandFault::BadPattern { line } => push_on_line(page, *line, b"bad pattern"),
        CommandFault::Memory => page.push(b"out of memory"),
    }
}

/// Appends why a command can't be carried out.
#[tactic(auto, unfolding(crate::specs::PatchTexts::patch_text))]
pub(crate) fn push_patch(page: &mut Page, fault: &PatchFault) -> Result<(), NoMemory>
    ensures { OnOk result (page.new ≡ page.old ++ patch_text fault.now) }
{
    match fault {
        PatchFault::NoMatch { line } => push_on_line(page, *line, b"nothing matches"),
        PatchFault::AddExists { line, name } => {
            push_both(page, *line, name.bytes(), b" is there already")
        }
        PatchFault::CopyMissing { line, name } => {
            push_both(page, *line, name.bytes(), b" to copy is missing")
        }
        PatchFault::Incomplete { line, key } => {
            push_both(page, *line, b"missing ", key.as_str().as_bytes())
        }
        PatchFault::StripClash {
            line,
            first,
            second,
        } => push_names(
            page,
            *line,
            b"stripping makes ",
            first.bytes(),
            b" and ",
            second.bytes(),
            b" alike",
        ),
        PatchFault::ArrayUneven {
            line,
            first,
            second,
        } => push_names(
            page,
            *line,
            b"uneven step from ",
            first.bytes(),
            b" to ",
            second.bytes(),
            b"",
        ),
        PatchFault::ArrayUnlike {
            line,
            first,
            second,
        } => push_names(
            page,
            *line,
            b"",
            first.bytes(),
            b" and ",
            second.bytes(),
            b" are unlike",
        ),
        PatchFault::TooMany { kind, count } => push_many(page, *kind, *count),
        PatchFault::Memory => page.push(b"out of memory"),
    }
}
