/// What is wrong, in the order in which faults of one line are sought.
#[derive(Clone, Copy, PartialEq, Eq)]
pub enum FaultKind {
    /// A key begins with `_` and is no command.
    UnknownCommand,
    /// A key of a command is none that a patch knows.
    UnknownKey,
    /// A value hasn't its form.
    BadValue,
    /// A text is no pattern.
    BadPattern,
}

/// A fault and its line.
#[derive(Clone, Copy)]
pub struct Fault {
    /// The line, counted from 1.
    pub line: u32,
    /// What is wrong there.
    pub kind: FaultKind,
}
