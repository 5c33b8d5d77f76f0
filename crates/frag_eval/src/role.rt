/// What the next access of a run is.
#[derive(Clone, Copy, Debug, PartialEq, Eq)]
pub enum Role {
    /// The read of a `let`.
    Read,
    /// The write of `write`, `write_with_zero` or `reset`.
    Write,
    /// The read of a `modify`.
    ModifyRead,
    /// The write of a `modify`.
    ModifyWrite,
}
