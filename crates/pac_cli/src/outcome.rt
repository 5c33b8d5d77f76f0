use pac_fault::PacFault;

/// What became of the line that tells of a fault.
#[derive(Clone, Copy, Debug, PartialEq, Eq)]
pub enum Told {
    /// It was written whole, or there was no fault to tell of.
    Whole,
    /// Writing it failed.
    Failed,
    /// Memory was wanting for it.
    Memory,
}

/// What a call of `pac` answers.
#[derive(Drop)]
pub struct Outcome {
    /// The exit status: 0, or that of the fault.
    pub status: u8,
    /// Why the call didn't do what its words asked for.
    pub fault: Option<PacFault>,
    /// What became of the line that tells of the fault.
    pub told: Told,
}
