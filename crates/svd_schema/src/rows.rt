ghost use Rattle.std.specs.Prelude.{◌≡◌};
ghost use Rattle.std.specs.Map.{lookup};
ghost use Rattle.std.specs.Str.{bytes_eq};
ghost use Rattle.svd_schema.specs.Table.{row_of, role_of};
ghost use Rattle.svd_schema.specs.declared.container.Container.TheVariants.{Device, Peripherals, Peripheral, Registers, Cluster, Register, Fields, Field, ValueSet, Variant};

use crate::container::Container;
use crate::key::Key;
use crate::roles::Role;
use crate::table::value_in;
use case_table::CaseRow;

// The value of the row that has the text. The rows stand in rising order of their words, and are
// numbered from 0.
macro_rules! value_named {
    ($text:expr, $count:literal; $($code:literal $word:literal => $value:expr),* $(,)?) => {{
        let rows = [$(CaseRow { word: $word, code: $code }),*];
        let values = [$($value),*];
        value_in::<_, $count>(&rows, &values, $text)
    }};
}

/// What an element of that name is in the container; None exactly where it may not stand there.
pub fn role(container: Container, name: &[u8]) -> Option<Role>
    ensures { result ≡ role_of container name.now }
{
    match container {
        Container::Device => in_device(name),
        Container::Peripherals => in_peripherals(name),
        Container::Peripheral => in_peripheral(name),
        Container::Registers => in_registers(name),
        Container::Cluster => in_cluster(name),
        Container::Register => in_register(name),
        Container::Fields => in_fields(name),
        Container::Field => in_field(name),
        Container::ValueSet => in_value_set(name),
        Container::Variant => in_variant(name),
    }
}

#[tactic(auto, unfolding(crate::specs::Table::row_of))]
fn in_device(name: &[u8]) -> Option<Role>
    ensures { result ≡ lookup (bytes_eq name.now) (row_of Device) }
{
    value_named!(name, 19;
        0 "access" => Role::States(Key::Access),
        1 "addressUnitBits" => Role::States(Key::AddressUnitBits),
        2 "cpu" => Role::PassedOver,
        3 "description" => Role::PassedOver,
        4 "headerDefinitionsPrefix" => Role::PassedOver,
        5 "headerSystemFilename" => Role::PassedOver,
        6 "licenseText" => Role::PassedOver,
        7 "name" => Role::States(Key::Name),
        8 "peripherals" => Role::Holds(Container::Peripherals),
        9 "protection" => Role::PassedOver,
        10 "resetMask" => Role::States(Key::ResetMask),
        11 "resetValue" => Role::States(Key::ResetValue),
        12 "series" => Role::PassedOver,
        13 "size" => Role::States(Key::Size),
        14 "vendor" => Role::PassedOver,
        15 "vendorExtensions" => Role::PassedOver,
        16 "vendorID" => Role::PassedOver,
        17 "version" => Role::PassedOver,
        18 "width" => Role::PassedOver,
    )
}

#[tactic(auto, unfolding(crate::specs::Table::row_of))]
fn in_peripherals(name: &[u8]) -> Option<Role>
    ensures { result ≡ lookup (bytes_eq name.now) (row_of Peripherals) }
{
    value_named!(name, 2;
        0 "peripheral" => Role::Holds(Container::Peripheral),
        1 "vendorExtensions" => Role::PassedOver,
    )
}

#[tactic(auto, unfolding(crate::specs::Table::row_of))]
fn in_peripheral(name: &[u8]) -> Option<Role>
    ensures { result ≡ lookup (bytes_eq name.now) (row_of Peripheral) }
{
    value_named!(name, 24;
        0 "access" => Role::States(Key::Access),
        1 "addressBlock" => Role::PassedOver,
        2 "alternatePeripheral" => Role::PassedOver,
        3 "appendToName" => Role::PassedOver,
        4 "baseAddress" => Role::States(Key::BaseAddress),
        5 "description" => Role::PassedOver,
        6 "dim" => Role::States(Key::Dim),
        7 "dimArrayIndex" => Role::PassedOver,
        8 "dimIncrement" => Role::States(Key::DimIncrement),
        9 "dimIndex" => Role::States(Key::DimIndex),
        10 "dimName" => Role::PassedOver,
        11 "disableCondition" => Role::PassedOver,
        12 "groupName" => Role::PassedOver,
        13 "headerStructName" => Role::PassedOver,
        14 "interrupt" => Role::PassedOver,
        15 "name" => Role::States(Key::Name),
        16 "prependToName" => Role::PassedOver,
        17 "protection" => Role::PassedOver,
        18 "registers" => Role::Holds(Container::Registers),
        19 "resetMask" => Role::States(Key::ResetMask),
        20 "resetValue" => Role::States(Key::ResetValue),
        21 "size" => Role::States(Key::Size),
        22 "vendorExtensions" => Role::PassedOver,
        23 "version" => Role::PassedOver,
    )
}

#[tactic(auto, unfolding(crate::specs::Table::row_of))]
fn in_registers(name: &[u8]) -> Option<Role>
    ensures { result ≡ lookup (bytes_eq name.now) (row_of Registers) }
{
    value_named!(name, 3;
        0 "cluster" => Role::Holds(Container::Cluster),
        1 "register" => Role::Holds(Container::Register),
        2 "vendorExtensions" => Role::PassedOver,
    )
}

#[tactic(auto, unfolding(crate::specs::Table::row_of))]
fn in_cluster(name: &[u8]) -> Option<Role>
    ensures { result ≡ lookup (bytes_eq name.now) (row_of Cluster) }
{
    value_named!(name, 18;
        0 "access" => Role::States(Key::Access),
        1 "addressOffset" => Role::States(Key::AddressOffset),
        2 "alternateCluster" => Role::States(Key::AlternateCluster),
        3 "cluster" => Role::Holds(Container::Cluster),
        4 "description" => Role::PassedOver,
        5 "dim" => Role::States(Key::Dim),
        6 "dimArrayIndex" => Role::PassedOver,
        7 "dimIncrement" => Role::States(Key::DimIncrement),
        8 "dimIndex" => Role::States(Key::DimIndex),
        9 "dimName" => Role::PassedOver,
        10 "headerStructName" => Role::PassedOver,
        11 "name" => Role::States(Key::Name),
        12 "protection" => Role::PassedOver,
        13 "register" => Role::Holds(Container::Register),
        14 "resetMask" => Role::States(Key::ResetMask),
        15 "resetValue" => Role::States(Key::ResetValue),
        16 "size" => Role::States(Key::Size),
        17 "vendorExtensions" => Role::PassedOver,
    )
}

#[tactic(auto, unfolding(crate::specs::Table::row_of))]
fn in_register(name: &[u8]) -> Option<Role>
    ensures { result ≡ lookup (bytes_eq name.now) (row_of Register) }
{
    value_named!(name, 22;
        0 "access" => Role::States(Key::Access),
        1 "addressOffset" => Role::States(Key::AddressOffset),
        2 "alternateGroup" => Role::States(Key::AlternateGroup),
        3 "alternateRegister" => Role::States(Key::AlternateRegister),
        4 "dataType" => Role::PassedOver,
        5 "description" => Role::PassedOver,
        6 "dim" => Role::States(Key::Dim),
        7 "dimArrayIndex" => Role::PassedOver,
        8 "dimIncrement" => Role::States(Key::DimIncrement),
        9 "dimIndex" => Role::States(Key::DimIndex),
        10 "dimName" => Role::PassedOver,
        11 "displayName" => Role::PassedOver,
        12 "fields" => Role::Holds(Container::Fields),
        13 "modifiedWriteValues" => Role::States(Key::ModifiedWriteValues),
        14 "name" => Role::States(Key::Name),
        15 "protection" => Role::PassedOver,
        16 "readAction" => Role::States(Key::ReadAction),
        17 "resetMask" => Role::States(Key::ResetMask),
        18 "resetValue" => Role::States(Key::ResetValue),
        19 "size" => Role::States(Key::Size),
        20 "vendorExtensions" => Role::PassedOver,
        21 "writeConstraint" => Role::PassedOver,
    )
}

#[tactic(auto, unfolding(crate::specs::Table::row_of))]
fn in_fields(name: &[u8]) -> Option<Role>
    ensures { result ≡ lookup (bytes_eq name.now) (row_of Fields) }
{
    value_named!(name, 2;
        0 "field" => Role::Holds(Container::Field),
        1 "vendorExtensions" => Role::PassedOver,
    )
}

#[tactic(auto, unfolding(crate::specs::Table::row_of))]
fn in_field(name: &[u8]) -> Option<Role>
    ensures { result ≡ lookup (bytes_eq name.now) (row_of Field) }
{
    value_named!(name, 18;
        0 "access" => Role::States(Key::Access),
        1 "bitOffset" => Role::States(Key::BitOffset),
        2 "bitRange" => Role::States(Key::BitRange),
        3 "bitWidth" => Role::States(Key::BitWidth),
        4 "description" => Role::PassedOver,
        5 "dim" => Role::States(Key::Dim),
        6 "dimArrayIndex" => Role::PassedOver,
        7 "dimIncrement" => Role::States(Key::DimIncrement),
        8 "dimIndex" => Role::States(Key::DimIndex),
        9 "dimName" => Role::PassedOver,
        10 "enumeratedValues" => Role::Holds(Container::ValueSet),
        11 "lsb" => Role::States(Key::Lsb),
        12 "modifiedWriteValues" => Role::States(Key::ModifiedWriteValues),
        13 "msb" => Role::States(Key::Msb),
        14 "name" => Role::States(Key::Name),
        15 "readAction" => Role::States(Key::ReadAction),
        16 "vendorExtensions" => Role::PassedOver,
        17 "writeConstraint" => Role::PassedOver,
    )
}

#[tactic(auto, unfolding(crate::specs::Table::row_of))]
fn in_value_set(name: &[u8]) -> Option<Role>
    ensures { result ≡ lookup (bytes_eq name.now) (row_of ValueSet) }
{
    value_named!(name, 5;
        0 "enumeratedValue" => Role::Holds(Container::Variant),
        1 "headerEnumName" => Role::PassedOver,
        2 "name" => Role::States(Key::Name),
        3 "usage" => Role::States(Key::Usage),
        4 "vendorExtensions" => Role::PassedOver,
    )
}

#[tactic(auto, unfolding(crate::specs::Table::row_of))]
fn in_variant(name: &[u8]) -> Option<Role>
    ensures { result ≡ lookup (bytes_eq name.now) (row_of Variant) }
{
    value_named!(name, 5;
        0 "description" => Role::PassedOver,
        1 "isDefault" => Role::States(Key::IsDefault),
        2 "name" => Role::States(Key::Name),
        3 "value" => Role::States(Key::Value),
        4 "vendorExtensions" => Role::PassedOver,
    )
}
