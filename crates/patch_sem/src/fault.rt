use pac_base::{Name, NoMemory, Text};
use svd_model::Counted;
use thiserror::Error;

/// Why a patch can't be carried out. A line is that of the pattern or entry, counted from 1.
#[derive(Debug, Drop, Error)]
pub enum PatchFault {
    /// The pattern matches no child of an opened parent, or the command stands in an opened field.
    #[error("nothing matches")]
    NoMatch {
        line: u32,
    },
    /// A new name is the written name of a sibling.
    #[error("a name is there already")]
    AddExists {
        line: u32,
        name: Name,
    },
    /// No child has the name of the element to copy.
    #[error("an element to copy is missing")]
    CopyMissing {
        line: u32,
        name: Name,
    },
    /// What is added lacks a key: `baseAddress`, `addressOffset`, or `bitOffset` for the place of a field.
    #[error("a key is missing")]
    Incomplete {
        line: u32,
        key: Text,
    },
    /// Two children would have one name without the prefix.
    #[error("stripping makes two names alike")]
    StripClash {
        line: u32,
        first: Name,
        second: Name,
    },
    /// Two neighbours in an array have a step of 0, or not the first step.
    #[error("a step is uneven")]
    ArrayUneven {
        line: u32,
        first: Name,
        second: Name,
    },
    /// Two members of an array differ in kind, in a key other than name and offset, or in their children.
    #[error("two members are unlike")]
    ArrayUnlike {
        line: u32,
        first: Name,
        second: Name,
    },
    /// More elements than there may be are left by what was done so far.
    #[error("too many elements: {count}")]
    TooMany {
        kind: Counted,
        count: u64,
    },
    /// Memory was wanting.
    #[error("out of memory")]
    Memory,
}
