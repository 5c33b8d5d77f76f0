/// What there may be too many of. A count that is told with it is the exact number, or 2^64 - 1 where
/// that is greater.
#[derive(Clone, Copy, Debug, PartialEq, Eq)]
pub enum Counted {
    /// Peripherals, clusters, registers, fields and enumerated values together.
    Elements,
    /// Registers.
    Registers,
    /// Fields.
    Fields,
    /// Enumerated values.
    Values,
}
