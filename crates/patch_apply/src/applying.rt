ghost use Rattle.std.specs.Prelude.{◌≡◌, IfErr, IfOk, OnOk, Ok, map};
ghost use Rattle.patch_apply.specs.Applying.{IsFaultOf, IsPatched};
ghost use Rattle.patch_edits.specs.Commands.{IsApplied, IsCounted};
ghost use Rattle.patch_model.specs.Acts.{order_of};
ghost use Rattle.patch_ready.specs.Ready.{AreReady, IsReadyDeed};
ghost use Rattle.patch_sem.specs.Patching.{patched};
ghost use Rattle.svd_model.specs.Facts.{IsDescribed};
ghost use Rattle.svd_model.specs.Trees.{device_rows};

use pac_base::{Back, NoMemory};
use patch_additions::add;
use patch_arrays::array;
use patch_changes::{modify, modify_device};
use patch_copies::copy;
use patch_edits::{delete, open};
use patch_model::{Act, Command, Commands};
use patch_names::strip;
use patch_sem::PatchFault;
use std::alloc::Global;
use svd_model::{Described, Device, Patched};

// One command. `total` is how many elements the device has, before and after.
fn one(
    alloc: Global,
    command: &Command,
    total: &mut u64,
    device: &mut Device,
) -> Result<(), PatchFault>
    requires described { IsDescribed device.old }
    requires counted { IsCounted device.old total.old }
    requires ready { IsReadyDeed (order_of command.now).deed }
    ensures applied { IsApplied (order_of command.now) (device_rows device.old) (device_rows device.new) result }
    ensures described { IfOk result (λ done. IsDescribed device.new) }
    ensures counted { OnOk result (IsCounted device.new total.new) }
{
    let line = command.line;
    let parents = command.parents.as_slice();
    match &command.act {
        Act::Open(pattern) => open(alloc, line, parents, pattern, total, device),
        Act::Delete(pattern) => delete(alloc, line, parents, pattern, total, device),
        Act::Copy { name, from, keys } => copy(
            alloc,
            line,
            parents,
            name,
            from,
            keys.as_slice(),
            total,
            device,
        ),
        Act::Modify { target, keys } => modify(
            alloc,
            line,
            parents,
            target,
            keys.as_slice(),
            total,
            device,
        ),
        Act::ModifyDevice(keys) => modify_device(alloc, line, parents, keys.as_slice(), device),
        Act::Add(addition) => add(alloc, line, parents, addition, total, device),
        Act::Strip(prefix) => strip(alloc, line, parents, prefix, total, device),
        Act::Array { target, name } => array(alloc, line, parents, target, name, total, device),
    }
}

// A copy of the device of a state, after all commands. Its elements are counted once.
fn applied(alloc: Global, state: &Described, commands: &[Command]) -> Result<Device, PatchFault>
    requires { AreReady (map order_of commands.now) }
    ensures described { IfOk result IsDescribed }
    ensures patched { IsPatched (map order_of commands.now) state.now device_rows result }
{
    let mut device = match state.copy(alloc) {
        Ok(copy) => copy.into_device(),
        Err(NoMemory) => return Err(PatchFault::Memory),
    };
    let mut total = device.elements();
    for command in commands {
        one(alloc, command, &mut total, &mut device)?;
    }
    Ok(device)
}

/// The state after the commands of a patch, each at each of its parents in turn (svdtools' patch documentation, narrowed).
/// Where a command has a fault, the first, and where memory is wanting, `Memory`; the state then comes back equal to what was
/// handed in. The commands have to be ready, as `patch_ready` says of those that a text spells.
pub fn apply(
    alloc: Global,
    state: Described,
    commands: &Commands,
) -> Result<Patched, Back<Described, PatchFault>>
    requires { AreReady (map order_of commands.now) }
    ensures rows { IfOk result (λ made. patched (map order_of commands.now) state ≡ Ok made) }
    ensures kept { IfErr result (λ back. back.state ≡ state) }
    ensures fault { IfErr result (λ back. IsFaultOf (map order_of commands.now) state back.fault) }
{
    match applied(alloc, &state, commands.as_slice()) {
        Ok(device) => Ok(Patched::new(device)),
        Err(fault) => Err(Back { state, fault }),
    }
}
