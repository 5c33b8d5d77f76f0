use pac_base::{NoMemory, Path};
use svd_model::Counted;
use thiserror::Error;

/// What is wrong with the dimension of an element.
#[derive(Clone, Copy, Debug, PartialEq, Eq)]
pub enum Cause {
    /// `dim` is 0.
    Zero,
    /// `dim` passes 65,536.
    TooLong { dim: u64 },
    /// Just one of `dim` and the mark `%s` stands.
    NoMark,
    /// `dimIndex` gives another number of indexes than `dim`.
    IndexCount { dim: u64, given: u64 },
}

/// Why a description wasn't unfolded. Paths have the written names of the elements.
#[derive(Debug, Drop, Error)]
pub enum DimFault {
    /// `dim` is 0.
    #[error("dim is 0")]
    DimZero { path: Path },
    /// `dim` passes 65,536.
    #[error("dim passes 65536")]
    DimTooLong { path: Path, dim: u64 },
    /// Just one of `dim` and the mark `%s` in the name stands.
    #[error("dim and %s must stand together")]
    DimNoMark { path: Path },
    /// `dimIndex` gives another number of indexes than `dim`; 2^64 - 1 where it gives more.
    #[error("dim is {dim} and dimIndex gives {given}")]
    DimIndexCount { path: Path, dim: u64, given: u64 },
    /// A count passes its limit: elements, with lists expanded and arrays counted once; registers with
    /// every member; their fields; or the values of these. `count` is 2^64 - 1 where it is greater.
    #[error("too many parts: {count}")]
    TooMany { kind: Counted, count: u64 },
    /// Memory was wanting.
    #[error("out of memory")]
    Memory,
}
