/// An element that holds elements (CMSIS-SVD 1.3).
#[derive(Clone, Copy, Debug, PartialEq, Eq)]
pub enum Container {
    /// `device`
    Device,
    /// `peripherals`
    Peripherals,
    /// `peripheral`
    Peripheral,
    /// `registers`
    Registers,
    /// `cluster`
    Cluster,
    /// `register`
    Register,
    /// `fields`
    Fields,
    /// `field`
    Field,
    /// `enumeratedValues`
    ValueSet,
    /// `enumeratedValue`
    Variant,
}
