ghost use Rattle.std.specs.Prelude.{◌≡◌, IfOk};
ghost use Rattle.pac_sample.specs.Description.{sample_text};
ghost use Rattle.pac_sample.specs.Script.{sample_script};
ghost use Rattle.pac_sample.specs.Wanted.{IsCount};

use crate::description::sample_text;
use crate::held::Held;
use crate::script::sample_script;
use pac_base::NoMemory;
use pac_io::SinkFault;
use std::alloc::Global;

/// The bytes of a sample's description.
pub fn sample_source(alloc: Global, number: u64, count: u64) -> Result<Vec<u8>, NoMemory>
    requires { IsCount count }
    ensures { IfOk result (λ text. text.items ≡ sample_text number count) }
{
    let mut held = Held {
        bytes: Vec::new(alloc),
    };
    match sample_text(alloc, number, count, &mut held) {
        Ok(()) => Ok(held.bytes),
        Err(SinkFault::Memory) => Err(NoMemory),
        Err(SinkFault::Failed) => unreachable!(),
    }
}

/// The bytes of a sample's script.
pub fn script_source(alloc: Global, count: u64) -> Result<Vec<u8>, NoMemory>
    requires { IsCount count }
    ensures { IfOk result (λ text. text.items ≡ sample_script count) }
{
    let mut held = Held {
        bytes: Vec::new(alloc),
    };
    match sample_script(alloc, count, &mut held) {
        Ok(()) => Ok(held.bytes),
        Err(SinkFault::Memory) => Err(NoMemory),
        Err(SinkFault::Failed) => unreachable!(),
    }
}
