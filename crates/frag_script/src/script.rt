ghost use Rattle.std.specs.Prelude.{◌≡◌, ◌≤◌, ◌<◌, ◌+◌, ◌^◌, ℕ, List, Result, OnOk, IfOk, IfErr, length, []};
ghost use Rattle.frag_tree.specs.declared.script.Script.{Script};
ghost use Rattle.frag_tree.specs.declared.script.ScriptLine.{ScriptLine};
ghost use Rattle.frag_script.specs.Reading.{behind_line, outcome, script_at};
ghost use Rattle.frag_script.specs.ScriptLines.{RefusedFor, SpellsScript};
ghost use Rattle.frag_script.specs.Telling.{FailsAt, FailsOn, Tells, held_told};

use crate::fault::{LineFault, ScriptFault};
use crate::line::{held, split_line};
use frag_tree::{Script, ScriptLine, Statement};
use pac_base::{NoMemory, Seq};
use std::alloc::Global;

/// The most statements that a script has.
const MOST: u64 = 65_536;

/// The statements that were met: the first of them, and how many there were.
#[derive(Drop)]
struct Met {
    kept: Seq<ScriptLine>,
    count: u64,
}

impl Met {
    /// Counts a statement, and keeps it where a script may still have it.
    fn keep(&mut self, line: u32, statement: Statement) -> Result<(), NoMemory>
        requires { self.old.count < 2 ^ 63 }
        ensures met { OnOk result ((script : Result (List ScriptLine) ℕ) → outcome self.new.kept self.new.count script ≡ outcome self.old.kept self.old.count (behind_line line (held_told statement) script)) }
        ensures counted { OnOk result (self.new.count ≡ self.old.count + 1) }
    {
        if self.count < MOST {
            self.kept.push(ScriptLine { line, statement })?;
        }
        self.count += 1;
        Ok(())
    }
}

/// What the line of this number holds.
fn held_on(alloc: Global, line: u32, text: &[u8]) -> Result<Option<Statement>, ScriptFault>
    ensures { FailsOn result line text.now }
{
    match held(alloc, text) {
        Ok(held) => Ok(held),
        Err(LineFault::NotAStatement) => Err(ScriptFault::Syntax { line }),
        Err(LineFault::Memory) => Err(ScriptFault::Memory),
    }
}

/// The statements of all lines.
fn statements(alloc: Global, bytes: &[u8]) -> Result<Met, ScriptFault>
    requires { length bytes.now ≤ 67108864 }
    ensures ok { IfOk result (λ met. outcome met.kept met.count (Ok []) ≡ script_at bytes.now) }
    ensures refused { IfErr result (λ fault. FailsAt fault (script_at bytes.now)) }
{
    let mut met = Met {
        kept: Seq::new(alloc),
        count: 0,
    };
    let mut left = Some(bytes);
    let mut line: u32 = 0;
    while let Some(text) = left {
        line += 1;
        let (first, after) = split_line(text);
        if let Some(statement) = held_on(alloc, line, first)? {
            met.keep(line, statement)?;
        }
        left = after;
    }
    Ok(met)
}

/// The script that the text spells.
fn script(alloc: Global, bytes: &[u8]) -> Result<Script, ScriptFault>
    requires { length bytes.now ≤ 67108864 }
    ensures { Tells result (script_at bytes.now) }
{
    let met = statements(alloc, bytes)?;
    if met.count > MOST {
        return Err(ScriptFault::TooLong { count: met.count });
    }
    Ok(Script { lines: met.kept })
}

/// The script that the bytes spell, for at most 67,108,864 of them: a statement on a line or none,
/// with spaces, tabs, a CR at the end and a comment behind `//` free. `Syntax` at the first line that
/// holds anything else; then `TooLong` where there are more than 65,536 statements.
pub fn parse_script(alloc: Global, bytes: &[u8]) -> Result<Script, ScriptFault>
    requires { length bytes.now ≤ 67108864 }
    // What is read is what the lines spell.
    ensures spelled { IfOk result (λ script. SpellsScript bytes.now script) }
    ensures bounded { IfOk result (λ script. length script.lines ≤ 65536) }
    // A refusal has its cause: the first line that is no statement, or too many statements.
    ensures refused { IfErr result (λ fault. RefusedFor fault bytes.now) }
{
    script(alloc, bytes)
}

/// The lines of a text spell one script at most.
pub fn one_script()
    ensures { (bytes : List ℕ) (one other : Script) → SpellsScript bytes one → SpellsScript bytes other → one.lines ≡ other.lines }
{}
