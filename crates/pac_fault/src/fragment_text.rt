ghost use Rattle.std.specs.Prelude.{◌≡◌, ◌++◌, OnOk, decimal};
ghost use Rattle.pac_fault.specs.FragmentTexts.{at_byte, crate_text, crate_typing_text, on_line, script_text, script_typing_text, statements_text};

use frag_types::{CrateFault, CrateTyping, ScriptFault, ScriptTyping};
use pac_base::NoMemory;
use pac_io::Page;

/// Appends a text and a number.
fn push_counted(page: &mut Page, said: &[u8], number: u64) -> Result<(), NoMemory>
    ensures { OnOk result (page.new ≡ page.old ++ (said.now ++ decimal number)) }
{
    page.push(said)?;
    page.decimal(number)
}

/// Appends what is wrong, and the byte at which it is.
fn push_at_byte(page: &mut Page, said: &[u8], at: usize) -> Result<(), NoMemory>
    ensures { OnOk result (page.new ≡ page.old ++ at_byte said.now at) }
{
    page.push(said)?;
    push_counted(page, b" at byte ", at as u64)
}

#[tactic(auto, unfolding(crate::specs::FragmentTexts::crate_typing_text))]
fn crate_typing_text(kind: CrateTyping) -> &'static [u8]
    ensures { result.now ≡ crate_typing_text kind }
{
    match kind {
        CrateTyping::UnknownName => b"crate text: unknown name",
        CrateTyping::DoubleName => b"crate text: name used twice",
        CrateTyping::WrongType => b"crate text: wrong type",
        CrateTyping::LiteralRange => b"crate text: literal out of range",
        CrateTyping::TooLarge => b"crate text: block too large",
    }
}

/// Appends why a text is no crate that fits.
#[tactic(auto, unfolding(crate::specs::FragmentTexts::crate_text))]
pub(crate) fn push_crate(page: &mut Page, fault: &CrateFault) -> Result<(), NoMemory>
    ensures { OnOk result (page.new ≡ page.old ++ crate_text fault.now) }
{
    match fault {
        CrateFault::Syntax { at } => push_at_byte(page, b"crate text: syntax", *at),
        CrateFault::TooDeep { at } => push_at_byte(page, b"crate text: nesting passes 64", *at),
        CrateFault::Typing { at, kind } => push_at_byte(page, crate_typing_text(*kind), *at),
        CrateFault::Memory => page.push(b"out of memory"),
    }
}

#[tactic(auto, unfolding(crate::specs::FragmentTexts::script_typing_text))]
fn script_typing_text(kind: ScriptTyping) -> &'static [u8]
    ensures { result.now ≡ script_typing_text kind }
{
    match kind {
        ScriptTyping::NoSuchName => b"no such name",
        ScriptTyping::NoSuchCall => b"no such call",
        ScriptTyping::WrongType => b"wrong type",
        ScriptTyping::IndexRange => b"index out of range",
        ScriptTyping::LiteralRange => b"literal out of range",
        ScriptTyping::Rebound => b"name bound twice",
    }
}

/// Appends a text, a number, and two texts behind it.
fn push_numbered(
    page: &mut Page,
    before: &[u8],
    number: u64,
    behind: &[u8],
    said: &[u8],
) -> Result<(), NoMemory>
    ensures { OnOk result (page.new ≡ page.old ++ (before.now ++ (decimal number ++ (behind.now ++ said.now)))) }
{
    push_counted(page, before, number)?;
    page.push(behind)?;
    page.push(said)
}

/// Appends a line of a script, and what is wrong on it.
fn push_on_line(page: &mut Page, line: u32, said: &[u8]) -> Result<(), NoMemory>
    ensures { OnOk result (page.new ≡ page.old ++ on_line line said.now) }
{
    push_numbered(page, b"script line ", u64::from(line), b": ", said)
}

/// Appends how many statements a script has.
pub(crate) fn push_statements(page: &mut Page, count: u64) -> Result<(), NoMemory>
    ensures { OnOk result (page.new ≡ page.old ++ statements_text count) }
{
    push_counted(page, b"too many statements: ", count)
}

/// Appends why a text is no script, or a script doesn't fit a crate.
#[tactic(auto, unfolding(crate::specs::FragmentTexts::script_text))]
pub(crate) fn push_script(page: &mut Page, fault: &ScriptFault) -> Result<(), NoMemory>
    ensures { OnOk result (page.new ≡ page.old ++ script_text fault.now) }
{
    match fault {
        ScriptFault::Syntax { line } => push_on_line(page, *line, b"syntax"),
        ScriptFault::TooLong { count } => push_statements(page, *count),
        ScriptFault::Typing { line, kind } => push_on_line(page, *line, script_typing_text(*kind)),
        ScriptFault::Memory => page.push(b"out of memory"),
    }
}
