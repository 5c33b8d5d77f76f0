ghost use Rattle.std.specs.Prelude.{◌≤◌, IfOk, IfSome, length, map, option_map};
ghost use Rattle.pac_cli.specs.Resolving.{FitsLimits, bytes_in};
ghost use Rattle.pac_cli.specs.Stages.{Patches, ReadsPatch, Resolves};
ghost use Rattle.patch_model.specs.Acts.{order_of};
ghost use Rattle.patch_ready.specs.Ready.{AreReady};

use crate::source::Description;
use derive_from::derive;
use dim_expand::unfold;
use overlap_check::check;
use pac_fault::PacFault;
use patch_apply::apply;
use patch_model::{Commands, commands};
use patch_ready::ready_law;
use std::alloc::Global;
use svd_model::{Checked, Described, Patched};
use svd_reader::read_device;
use yaml_block::read_block;

/// What the files of a description come to: read, patched, derived, unfolded and checked, one stage after
/// the other. The first that refuses decides.
pub(crate) fn resolve(alloc: Global, source: Description<'_>) -> Result<Checked, PacFault>
    requires { FitsLimits (bytes_in source) }
    ensures { Resolves (bytes_in source.entry) result }
{
    let described = read_device(alloc, source.svd)?;
    let patched = patched(alloc, described, source.patch)?;
    let derived = derive(alloc, patched)?;
    let unfolded = unfold(alloc, derived)?;
    let checked = check(alloc, unfolded, source.policy)?;
    Ok(checked)
}

/// The description that the patch leaves, where there is one.
fn patched(alloc: Global, state: Described, patch: Option<&[u8]>) -> Result<Patched, PacFault>
    requires { IfSome patch (λ bytes. length bytes.now ≤ 67_108_864) }
    ensures { Patches state (option_map (λ bytes. bytes.now) patch.entry) result }
{
    match patch {
        Some(bytes) => {
            let commands = commands_in(alloc, bytes)?;
            let patched = apply(alloc, state, &commands)?;
            Ok(patched)
        }
        None => Ok(Patched::new(state.into_device())),
    }
}

/// The commands of a patch.
fn commands_in(alloc: Global, bytes: &[u8]) -> Result<Commands, PacFault>
    requires { length bytes.now ≤ 67_108_864 }
    ensures read { ReadsPatch bytes.now result }
    ensures ready { IfOk result (λ commands. AreReady (map order_of commands)) }
{
    ready_law();
    let node = read_block(alloc, bytes)?;
    let commands = commands(alloc, &node)?;
    Ok(commands)
}
