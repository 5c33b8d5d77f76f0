// Setting keys of what stands in a description: the command `_modify` of patches.
#![tactic(auto)]

mod device;
mod entries;
mod items;
mod law;
mod modifying;
mod naming;

pub use device::modify_device;
pub use law::modifying_law;
pub use modifying::modify;
