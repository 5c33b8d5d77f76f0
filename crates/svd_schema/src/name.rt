ghost use Rattle.std.specs.Prelude.{◌≡◌};
ghost use Rattle.svd_schema.specs.Names.{key_name, container_name};

use crate::container::Container;
use crate::key::Key;

impl Key {
    /// The name of the element that the key is.
    #[tactic(auto, unfolding(crate::specs::Names::key_name))]
    pub fn name(self) -> &'static str
        ensures { result.now ≡ key_name self }
    {
        match self {
            Key::Name => "name",
            Key::AddressUnitBits => "addressUnitBits",
            Key::Size => "size",
            Key::Access => "access",
            Key::ResetValue => "resetValue",
            Key::ResetMask => "resetMask",
            Key::Dim => "dim",
            Key::DimIncrement => "dimIncrement",
            Key::DimIndex => "dimIndex",
            Key::BaseAddress => "baseAddress",
            Key::AddressOffset => "addressOffset",
            Key::AlternateCluster => "alternateCluster",
            Key::AlternateGroup => "alternateGroup",
            Key::AlternateRegister => "alternateRegister",
            Key::ModifiedWriteValues => "modifiedWriteValues",
            Key::ReadAction => "readAction",
            Key::BitOffset => "bitOffset",
            Key::BitWidth => "bitWidth",
            Key::Lsb => "lsb",
            Key::Msb => "msb",
            Key::BitRange => "bitRange",
            Key::Usage => "usage",
            Key::Value => "value",
            Key::IsDefault => "isDefault",
        }
    }
}

impl Container {
    /// The name of the element that the container is.
    #[tactic(auto, unfolding(crate::specs::Names::container_name))]
    pub fn name(self) -> &'static str
        ensures { result.now ≡ container_name self }
    {
        match self {
            Container::Device => "device",
            Container::Peripherals => "peripherals",
            Container::Peripheral => "peripheral",
            Container::Registers => "registers",
            Container::Cluster => "cluster",
            Container::Register => "register",
            Container::Fields => "fields",
            Container::Field => "field",
            Container::ValueSet => "enumeratedValues",
            Container::Variant => "enumeratedValue",
        }
    }
}
