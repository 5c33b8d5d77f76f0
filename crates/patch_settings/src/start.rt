ghost use Rattle.std.specs.Prelude.{◌≡◌, IfOk};
ghost use Rattle.patch_settings.specs.Setting.{sets_rank};
ghost use Rattle.svd_schema.specs.declared.container.Container.TheVariants as container;

use crate::settings::Settings;
use pac_base::{NoMemory, Text};
use std::alloc::Global;
use svd_schema::Container;

/// Whether the texts set the address of a peripheral.
pub fn sets_base(alloc: Global, keys: &[(Text, Text)]) -> Result<bool, NoMemory>
    ensures { IfOk result (λ sets. sets ≡ sets_rank 5 container.Peripheral keys.now) }
{
    let settings = Settings::of(alloc, Container::Peripheral, keys)?;
    Ok(settings.base.is_some())
}

/// Whether the texts set the offset of a register.
pub fn sets_offset(alloc: Global, keys: &[(Text, Text)]) -> Result<bool, NoMemory>
    ensures { IfOk result (λ sets. sets ≡ sets_rank 6 container.Register keys.now) }
{
    let settings = Settings::of(alloc, Container::Register, keys)?;
    Ok(settings.place.offset.is_some())
}
