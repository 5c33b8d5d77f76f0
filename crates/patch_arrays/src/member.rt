ghost use Rattle.std.specs.Prelude.{◌≡◌, true, None, refl};
ghost use Rattle.std.specs.List.{list_any};
ghost use Rattle.patch_sem.specs.Selecting.{is_patched};
ghost use Rattle.patch_arrays.specs.Members.{Seen, is_alike, with_dim};
ghost use Rattle.patch_arrays.specs.Known.{child_known};
ghost use Rattle.patch_arrays.specs.Unplaced.{with_members};
ghost use Rattle.svd_model.specs.Counting.{elements_in, told_count};
ghost use Rattle.svd_model.specs.Facts.{is_dim};
ghost use Rattle.svd_model.specs.Stating.{start_of};
ghost use Rattle.svd_model.specs.Steps.{field, peripheral};
ghost use Rattle.svd_model.specs.Trees.{child_tree, field_tree, peripheral_tree};

use crate::resembling::{is_like_child, is_like_field, is_like_peripheral, offset_of};
use svd_model::{Child, Dim, Field, Peripheral};

/// What may become a member of an array.
pub(crate) trait Member: Drop {
    // Its kind, with its keys and what stands below it.
    ghost seen: { Self → Seen };

    // Patches know its kind.
    ghost known: { (one : Self) → is_patched (seen one).0 ≡ true };

    /// Whether it states `dim`, and so is a list or an array.
    fn is_dimmed(&self) -> bool
        ensures { result ≡ list_any is_dim (seen self.now).1.keys };

    /// The byte or bit at which it stands, 0 where it states none.
    fn offset(&self) -> u128
        ensures { result ≡ start_of (seen self.now).1.keys None };

    /// Whether the other is of its kind, and says the same but for the offset.
    fn is_like(&self, other: &Self) -> bool
        ensures { result ≡ is_alike (seen self.now) (seen other.now) };

    /// How many elements stand below it; 2^64 - 1 where there are more.
    fn below(&self) -> u64
        ensures { result ≡ told_count (elements_in (seen self.now).1.below) };

    /// Makes it an array of so many members at that step.
    fn set_dim(&mut self, count: u64, step: u64)
        ensures { seen self.new ≡ with_dim count step (seen self.old) };
}

fn set_members(dim: &mut Dim, count: u64, step: u64)
    ensures { dim.new ≡ with_members count step dim.old }
{
    dim.count = Some(count);
    dim.step = Some(step);
}

impl Member for Peripheral {
    ghost seen = { λ element. (peripheral, peripheral_tree element) };

    ghost known = { λ _. refl };

    fn is_dimmed(&self) -> bool {
        self.dim.count.is_some()
    }

    fn offset(&self) -> u128 {
        self.base
    }

    fn is_like(&self, other: &Peripheral) -> bool {
        is_like_peripheral(self, other)
    }

    fn below(&self) -> u64 {
        self.elements()
    }

    fn set_dim(&mut self, count: u64, step: u64) {
        set_members(&mut self.dim, count, step);
    }
}

impl Member for Child {
    ghost seen = { child_tree };

    ghost known = { child_known };

    fn is_dimmed(&self) -> bool {
        match self {
            Child::Cluster(cluster) => cluster.dim.count.is_some(),
            Child::Register(register) => register.dim.count.is_some(),
        }
    }

    fn offset(&self) -> u128 {
        offset_of(self)
    }

    fn is_like(&self, other: &Child) -> bool {
        is_like_child(self, other)
    }

    fn below(&self) -> u64 {
        self.elements()
    }

    fn set_dim(&mut self, count: u64, step: u64) {
        match self {
            Child::Cluster(cluster) => set_members(&mut cluster.dim, count, step),
            Child::Register(register) => set_members(&mut register.dim, count, step),
        }
    }
}

impl Member for Field {
    ghost seen = { λ element. (field, field_tree element) };

    ghost known = { λ _. refl };

    fn is_dimmed(&self) -> bool {
        self.dim.count.is_some()
    }

    fn offset(&self) -> u128 {
        self.place.offset.unwrap_or(0)
    }

    fn is_like(&self, other: &Field) -> bool {
        is_like_field(self, other)
    }

    fn below(&self) -> u64 {
        self.elements()
    }

    fn set_dim(&mut self, count: u64, step: u64) {
        set_members(&mut self.dim, count, step);
    }
}
