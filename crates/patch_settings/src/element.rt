ghost use Rattle.std.specs.Prelude.{◌≡◌, IfOk};
ghost use Rattle.patch_settings.specs.Setting.{IsSet, with_set};
ghost use Rattle.svd_model.specs.Trees.{child_tree, cluster_tree, device_tree, field_tree, peripheral_tree, register_tree};
ghost use Rattle.svd_schema.specs.declared.container.Container.TheVariants as container;

use crate::merging::{in_cluster, in_device, in_field, in_peripheral, in_register};
use crate::settings::Settings;
use pac_base::{NoMemory, Text};
use std::alloc::Global;
use svd_model::{Child, Cluster, Device, Field, Peripheral, Register};
use svd_schema::Container;

/// Sets the keys of a peripheral that the texts give, each a key with its value; a key that peripherals don't have,
/// and a value that isn't in its form, set nothing. What it is after want of memory isn't said.
pub fn set_peripheral(
    alloc: Global,
    keys: &[(Text, Text)],
    peripheral: &mut Peripheral,
) -> Result<(), NoMemory>
    ensures { IfOk result (λ done. IsSet container.Peripheral keys.now (peripheral_tree peripheral.old) (peripheral_tree peripheral.new)) }
{
    in_peripheral(
        Settings::of(alloc, Container::Peripheral, keys)?,
        peripheral,
    );
    Ok(())
}

/// The same of a cluster.
pub fn set_cluster(
    alloc: Global,
    keys: &[(Text, Text)],
    cluster: &mut Cluster,
) -> Result<(), NoMemory>
    ensures { IfOk result (λ done. IsSet container.Cluster keys.now (cluster_tree cluster.old) (cluster_tree cluster.new)) }
{
    in_cluster(Settings::of(alloc, Container::Cluster, keys)?, cluster);
    Ok(())
}

/// The same of a register.
pub fn set_register(
    alloc: Global,
    keys: &[(Text, Text)],
    register: &mut Register,
) -> Result<(), NoMemory>
    ensures { IfOk result (λ done. IsSet container.Register keys.now (register_tree register.old) (register_tree register.new)) }
{
    in_register(Settings::of(alloc, Container::Register, keys)?, register);
    Ok(())
}

/// The same of what stands in a peripheral or cluster.
pub fn set_child(alloc: Global, keys: &[(Text, Text)], child: &mut Child) -> Result<(), NoMemory>
    ensures { IfOk result (λ done. child_tree child.new ≡ with_set keys.now (child_tree child.old)) }
{
    match child {
        Child::Cluster(cluster) => set_cluster(alloc, keys, cluster),
        Child::Register(register) => set_register(alloc, keys, register),
    }
}

/// The same of a field. Its place is set by the first form that stands: `bitRange`, `lsb` with `msb`, or what stands
/// of `bitOffset` and `bitWidth`, in bits.
pub fn set_field(alloc: Global, keys: &[(Text, Text)], field: &mut Field) -> Result<(), NoMemory>
    ensures { IfOk result (λ done. IsSet container.Field keys.now (field_tree field.old) (field_tree field.new)) }
{
    in_field(Settings::of(alloc, Container::Field, keys)?, field);
    Ok(())
}

/// The same of the device itself, whose name is one of its keys.
pub fn set_device_keys(
    alloc: Global,
    keys: &[(Text, Text)],
    device: &mut Device,
) -> Result<(), NoMemory>
    ensures { IfOk result (λ done. IsSet container.Device keys.now (device_tree device.old) (device_tree device.new)) }
{
    in_device(Settings::of(alloc, Container::Device, keys)?, device);
    Ok(())
}
