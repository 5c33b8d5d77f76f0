ghost use Rattle.std.specs.Prelude.{◌≡◌, ◌∷◌, []};
ghost use Rattle.svd_model.specs.Properties.{holding, PropertiesNest};

use svd_values::Access;

/// The properties of registers that an element states (CMSIS-SVD 1.3, `registerPropertiesGroup`).
#[derive(Clone, Copy, Debug, PartialEq, Eq)]
pub struct Props {
    /// How many bits a register has.
    pub size: Option<u64>,
    /// Which accesses it takes.
    pub access: Option<Access>,
    /// The value after a reset.
    pub reset_value: Option<u64>,
    /// Which bits of that value are defined.
    pub reset_mask: Option<u64>,
}

impl Props {
    /// The properties that hold at an element which states these, inside `outer`: each key that is stated
    /// here, else the outer's.
    #[tactic(auto, unfolding(crate::specs::Properties::holding))]
    pub fn within(&self, outer: &Props) -> Props
        ensures { result ≡ holding (self.now ∷ outer.now ∷ []) }
    {
        Props {
            size: self.size.or(outer.size),
            access: self.access.or(outer.access),
            reset_value: self.reset_value.or(outer.reset_value),
            reset_mask: self.reset_mask.or(outer.reset_mask),
        }
    }
}

/// Properties that are taken one round the other, from the device inward, are at each register those that
/// the nearest element states.
pub fn properties_law()
    ensures { PropertiesNest }
{}
