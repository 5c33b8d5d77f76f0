ghost use Rattle.std.specs.Prelude.{◌≡◌, false, None, Some, IfSome, IfNone};
ghost use Rattle.derive_build.specs.Nodes.{own_node};
ghost use Rattle.derive_build.specs.Tables.{is_kid};
ghost use Rattle.derive_build.specs.declared.own.Own.TheVariants as own;
ghost use Rattle.svd_model.specs.Steps.{register, field, set};

use svd_model::{Cluster, Device, Field, Peripheral, Register, Sibling, Values, Variant};

/// An element of a device, under its key where it has one.
#[derive(Clone, Copy)]
pub enum Own<'a> {
    /// The device itself.
    Device(&'a Device),
    /// A peripheral.
    Peripheral(&'a Sibling, &'a Peripheral),
    /// A group of registers.
    Cluster(&'a Sibling, &'a Cluster),
    /// A register.
    Register(&'a Sibling, &'a Register),
    /// A field.
    Field(&'a Sibling, &'a Field),
    /// A set of enumerated values.
    Set(&'a Values),
    /// An enumerated value.
    Value(&'a Variant),
}

impl<'a> Own<'a> {
    /// The peripheral, where it is one.
    pub(crate) fn peripheral(self) -> Option<(&'a Sibling, &'a Peripheral)>
        ensures is { IfSome result (λ one. self.entry ≡ own.Peripheral one.0 one.1) }
        ensures other { IfNone result (is_kid None (own_node self.entry).kind ≡ false) }
    {
        match self {
            Own::Peripheral(key, element) => Some((key, element)),
            _ => None,
        }
    }

    /// The field, where it is one.
    pub(crate) fn field(self) -> Option<(&'a Sibling, &'a Field)>
        ensures is { IfSome result (λ one. self.entry ≡ own.Field one.0 one.1) }
        ensures other { IfNone result (is_kid (Some register) (own_node self.entry).kind ≡ false) }
    {
        match self {
            Own::Field(key, element) => Some((key, element)),
            _ => None,
        }
    }

    /// The set of enumerated values, where it is one.
    pub(crate) fn set(self) -> Option<&'a Values>
        ensures is { IfSome result (λ one. self.entry ≡ own.Set one) }
        ensures other { IfNone result (is_kid (Some field) (own_node self.entry).kind ≡ false) }
    {
        match self {
            Own::Set(element) => Some(element),
            _ => None,
        }
    }

    /// The enumerated value, where it is one.
    pub(crate) fn value(self) -> Option<&'a Variant>
        ensures is { IfSome result (λ one. self.entry ≡ own.Value one) }
        ensures other { IfNone result (is_kid (Some set) (own_node self.entry).kind ≡ false) }
    {
        match self {
            Own::Value(element) => Some(element),
            _ => None,
        }
    }
}
