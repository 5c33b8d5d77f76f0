ghost use Rattle.std.specs.Prelude.{IfOk, OnOk};
ghost use Rattle.patch_model.specs.Acts.{modifies_device};
ghost use Rattle.patch_edits.specs.Commands.{AreAsMany, IsApplied, order_at};
ghost use Rattle.svd_model.specs.Facts.{IsDescribed};
ghost use Rattle.svd_model.specs.Trees.{device_rows};

use glob_select::Pattern;
use pac_base::Text;
use patch_sem::PatchFault;
use patch_settings::set_device_keys;
use std::alloc::Global;
use svd_model::Device;

/// Sets the keys of the device itself, whatever the patterns round the command (svdtools' `_modify`). It refuses
/// nothing, and leaves as many elements as there were. What is left after want of memory isn't said.
pub fn modify_device(
    alloc: Global,
    line: u32,
    parents: &[Pattern],
    keys: &[(Text, Text)],
    device: &mut Device,
) -> Result<(), PatchFault>
    requires { IsDescribed device.old }
    ensures applied { IsApplied (order_at line parents.now (modifies_device keys.now)) (device_rows device.old) (device_rows device.new) result }
    ensures described { IfOk result (λ done. IsDescribed device.new) }
    ensures counted { OnOk result (AreAsMany device.old device.new) }
{
    match set_device_keys(alloc, keys, device) {
        Ok(()) => Ok(()),
        Err(_) => Err(PatchFault::Memory),
    }
}
