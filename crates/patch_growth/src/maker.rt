ghost use Rattle.std.specs.Prelude.{◌≡◌, None, Some, map};
ghost use Rattle.patch_growth.specs.Growths.{Growth};
ghost use Rattle.patch_growth.specs.Grown.{Makes};
ghost use Rattle.svd_model.specs.Steps.{peripheral, cluster, register, field};
ghost use Rattle.svd_model.specs.Trees.{peripheral_tree, peripheral_under, item_under, field_tree, field_under, child_tree};
ghost use Rattle.svd_rows.specs.Forest.{siblings};

use indexmap::IndexMap;
use pac_base::Name;
use patch_sem::PatchFault;
use std::alloc::Global;
use svd_model::{Child, Field, Item, Peripheral, Sibling};

/// What a command makes in an element that its patterns lead to.
pub trait Maker {
    // The command.
    ghost growth: { Self → Growth };

    /// The line of the command.
    fn line(&self) -> u32
        ensures { result ≡ (growth self.now).line };

    /// The name of what is made.
    fn name(&self) -> &Name
        ensures { result.now ≡ (growth self.now).name };

    /// In the device.
    fn peripheral(
        &self,
        alloc: Global,
        peripherals: &IndexMap<Sibling, Peripheral>,
    ) -> Result<Peripheral, PatchFault>
        ensures { Makes (λ made. (peripheral, peripheral_tree made)) ((growth self.now).made None (siblings (map peripheral_under peripherals.now.entries))) result };

    /// In a peripheral or cluster.
    fn child(&self, alloc: Global, items: &[Item]) -> Result<Child, PatchFault>
        ensures in_peripheral { Makes child_tree ((growth self.now).made (Some peripheral) (siblings (map item_under items.now))) result }
        ensures in_cluster { Makes child_tree ((growth self.now).made (Some cluster) (siblings (map item_under items.now))) result };

    /// In a register.
    fn field(&self, alloc: Global, fields: &IndexMap<Sibling, Field>) -> Result<Field, PatchFault>
        ensures { Makes (λ made. (field, field_tree made)) ((growth self.now).made (Some register) (siblings (map field_under fields.now.entries))) result };
}
