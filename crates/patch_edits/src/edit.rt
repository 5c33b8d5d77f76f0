ghost use Rattle.std.specs.Prelude.{◌≡◌, None, Some, Option, Err, map};
ghost use Rattle.patch_sem.specs.Steps.{Outcome};
ghost use Rattle.patch_sem.specs.declared.fault.PatchFault.TheVariants.{NoMatch};
ghost use Rattle.patch_edits.specs.Edits.{Edited, Recounts, below_block, below_device, below_register};
ghost use Rattle.patch_edits.specs.Visits.{Below};
ghost use Rattle.svd_model.specs.Steps.{Kind, peripheral, cluster, register, field};
ghost use Rattle.svd_model.specs.Trees.{peripheral_under, item_under, field_under};
ghost use Rattle.svd_rows.specs.Forest.{siblings};

use indexmap::IndexMap;
use patch_sem::PatchFault;
use std::alloc::Global;
use svd_model::{Field, Item, Peripheral, Sibling};

/// What a command does to the children of an element that its patterns lead to. `total` is how many elements the device has,
/// before and after.
pub trait Edit {
    // What it does to what is below an element of a kind, and below the device.
    ghost edit: { Self → Option Kind → Below → Outcome Below };

    /// In the device.
    fn peripherals(
        &self,
        alloc: Global,
        total: &mut u64,
        peripherals: &mut IndexMap<Sibling, Peripheral>,
    ) -> Result<(), PatchFault>
        ensures edited { Edited (edit self.now None (siblings (map peripheral_under peripherals.old.entries))) (siblings (map peripheral_under peripherals.new.entries)) result }
        ensures counted { Recounts below_device result total.old peripherals.old.entries total.new peripherals.new.entries };

    /// In a peripheral or cluster.
    fn items(&self, alloc: Global, total: &mut u64, items: &mut Vec<Item>) -> Result<(), PatchFault>
        ensures in_peripheral { Edited (edit self.now (Some peripheral) (siblings (map item_under items.old.items))) (siblings (map item_under items.new.items)) result }
        ensures in_cluster { Edited (edit self.now (Some cluster) (siblings (map item_under items.old.items))) (siblings (map item_under items.new.items)) result }
        ensures counted { Recounts below_block result total.old items.old.items total.new items.new.items };

    /// In a register.
    fn fields(
        &self,
        alloc: Global,
        total: &mut u64,
        fields: &mut IndexMap<Sibling, Field>,
    ) -> Result<(), PatchFault>
        ensures edited { Edited (edit self.now (Some register) (siblings (map field_under fields.old.entries))) (siblings (map field_under fields.new.entries)) result }
        ensures counted { Recounts below_register result total.old fields.old.entries total.new fields.new.entries };

    /// The line of the command, which finds nothing in a field.
    fn line(&self) -> u32
        ensures { (below : Below) → edit self.now (Some field) below ≡ Err (NoMatch result) };
}
