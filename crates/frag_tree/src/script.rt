use crate::statement::Statement;
use pac_base::Seq;

/// A script: its statements, each with its line.
#[derive(Drop)]
pub struct Script {
    /// The lines that hold a statement, in order.
    pub lines: Seq<ScriptLine>,
}

/// A line of a script that holds a statement.
#[derive(Drop)]
pub struct ScriptLine {
    /// The number of the line, counted from 1.
    pub line: u32,
    /// The statement.
    pub statement: Statement,
}
