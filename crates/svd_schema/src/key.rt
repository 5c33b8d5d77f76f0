/// An element that holds a value which is used (CMSIS-SVD 1.3).
#[derive(Clone, Copy, Debug, PartialEq, Eq)]
pub enum Key {
    /// `name`
    Name,
    /// `addressUnitBits`
    AddressUnitBits,
    /// `size`
    Size,
    /// `access`
    Access,
    /// `resetValue`
    ResetValue,
    /// `resetMask`
    ResetMask,
    /// `dim`
    Dim,
    /// `dimIncrement`
    DimIncrement,
    /// `dimIndex`
    DimIndex,
    /// `baseAddress`
    BaseAddress,
    /// `addressOffset`
    AddressOffset,
    /// `alternateCluster`
    AlternateCluster,
    /// `alternateGroup`
    AlternateGroup,
    /// `alternateRegister`
    AlternateRegister,
    /// `modifiedWriteValues`
    ModifiedWriteValues,
    /// `readAction`
    ReadAction,
    /// `bitOffset`
    BitOffset,
    /// `bitWidth`
    BitWidth,
    /// `lsb`
    Lsb,
    /// `msb`
    Msb,
    /// `bitRange`
    BitRange,
    /// `usage`
    Usage,
    /// `value`
    Value,
    /// `isDefault`
    IsDefault,
}
