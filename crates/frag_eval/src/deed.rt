use crate::role::Role;
use pac_base::Width;

/// What a run does next, in plain numbers. Words that were read are numbered from 0, in the order of the reads.
#[derive(Drop)]
pub(crate) enum Deed {
    /// A read, which adds a word to those that were read.
    Read {
        at: Target,
    },
    /// A write of a start word, into which parts are put one after the other.
    Write {
        at: Target,
        start: Start,
        puts: Vec<Put>,
    },
    /// A value is said.
    Say {
        value: Operand,
    },
}

/// Where an access goes, and what it is.
#[derive(Clone, Copy)]
pub(crate) struct Target {
    /// The address of its first byte.
    pub address: u64,
    pub width: Width,
    pub role: Role,
    /// The line of its statement.
    pub line: u32,
}

/// The word from which a write starts.
#[derive(Clone, Copy)]
pub(crate) enum Start {
    /// This one.
    Word(u64),
    /// That of the masks, based on a word that was read.
    Based { read: usize, one: u64, zero: u64 },
}

/// What is put into a word.
#[derive(Clone, Copy)]
pub(crate) enum Put {
    /// The word becomes this value.
    Whole {
        value: Operand,
    },
    /// This value goes to so many bits at an offset. Both numbers count as 64 at most.
    Part {
        offset: u32,
        bits: u32,
        value: Operand,
    },
}

/// A value, behind any number of `!`, and behind a cast where there is one.
#[derive(Clone, Copy)]
pub(crate) struct Operand {
    pub negations: u32,
    pub cast: Option<Width>,
    pub term: Term,
}

/// A value without `!`.
#[derive(Clone, Copy)]
pub(crate) enum Term {
    Number(u64),
    Truth(bool),
    /// A word that was read.
    Word {
        read: usize,
    },
    /// Whether any bit of a part is set is this truth.
    Bit {
        part: Part,
        value: bool,
    },
    /// A part, as a number of this width.
    Bits {
        part: Part,
        width: Width,
    },
    /// Whether a part, as a number of this width, is this value.
    Test {
        part: Part,
        width: Width,
        value: u64,
    },
}

/// The bits under a mask of a word that was read, behind a shift to the right. The shift counts as 64 at most.
#[derive(Clone, Copy)]
pub(crate) struct Part {
    pub read: usize,
    pub offset: u32,
    pub mask: u64,
}
