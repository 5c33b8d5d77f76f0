use crate::identifier::Identifier;
use pac_base::{Seq, Width};

/// A statement of a script.
#[derive(Drop)]
pub enum Statement {
    /// `let NAME = PLACE.read();`
    Let {
        /// The name that is bound to what is read.
        name: Identifier,
        /// The register.
        place: Place,
    },
    /// `PLACE.write(|w| CHAIN);`
    Write {
        /// The register.
        place: Place,
        /// What is put into the word.
        chain: Seq<Link>,
    },
    /// `PLACE.write_with_zero(|w| CHAIN);`
    WriteWithZero {
        /// The register.
        place: Place,
        /// What is put into the word.
        chain: Seq<Link>,
    },
    /// `PLACE.modify(|r, w| CHAIN);`, or `|_, w|`
    Modify {
        /// The register.
        place: Place,
        /// Whether what is read has the name `r`.
        names_reader: bool,
        /// What is put into the word.
        chain: Seq<Link>,
    },
    /// `PLACE.reset();`
    Reset {
        /// The register.
        place: Place,
    },
    /// `say(VALUE);`
    Say {
        /// What is said.
        value: Value,
    },
}

/// A register: a slot, and at least one accessor behind it.
#[derive(Drop)]
pub struct Place {
    /// The slot.
    pub slot: Identifier,
    /// The accessors, in order.
    pub steps: Seq<Call>,
}

/// A call of an accessor or of a field: `.NAME()`, or `.NAME(INDEX)`.
#[derive(Drop)]
pub struct Call {
    /// The name of the accessor or field.
    pub name: Identifier,
    /// The index, where one is given.
    pub index: Option<u64>,
}

/// One link of a chain of writes.
#[derive(Drop)]
pub enum Link {
    /// `.bits(VALUE)`: the whole word.
    Bits {
        /// What the word becomes.
        value: Value,
    },
    /// `.FIELD().METHOD()`, or `.FIELD().METHOD(VALUE)`, each also with `.FIELD(INDEX)`
    Field {
        /// The field.
        field: Call,
        /// The call on it.
        method: Identifier,
        /// What the call takes, where it takes something.
        value: Option<Value>,
    },
}

/// A value, behind any number of `!`.
#[derive(Drop)]
pub struct Value {
    /// How many `!` stand in front.
    pub negations: u32,
    /// What stands behind them.
    pub atom: Atom,
}

/// A value without `!`.
#[derive(Drop)]
pub enum Atom {
    /// A number.
    Number(u64),
    /// `true` or `false`.
    Truth(bool),
    /// What a source gives.
    Source(Source),
    /// What a source gives, as a number of this width: `SOURCE as WIDTH`.
    Cast {
        /// The source.
        source: Source,
        /// The width of the number.
        width: Width,
    },
}

/// What a bound reader gives.
#[derive(Drop)]
pub enum Source {
    /// `READER.bits()`: the whole word.
    Bits {
        /// The bound name.
        reader: Identifier,
    },
    /// `READER.FIELD().METHOD()`, or `READER.FIELD(INDEX).METHOD()`
    Field {
        /// The bound name.
        reader: Identifier,
        /// The field.
        field: Call,
        /// The call on it.
        method: Identifier,
    },
}
