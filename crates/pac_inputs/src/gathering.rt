ghost use Rattle.pac_inputs.specs.Reads.{Gathers, Reads};
ghost use Rattle.pac_inputs.specs.Shelves.{shelf};

use pac_base::{Seq, Text};
use pac_fault::{LimitFault, PacFault};
use pac_io::{Bytes, Files, FilesFault};
use std::alloc::Global;

/// A file that a command reads.
#[derive(Drop)]
pub struct Wanted {
    /// Its name, as the words have it.
    pub name: Text,
    /// How many bytes it may have.
    pub limit: u64,
}

/// The bytes of these files, read one after the other. The first that isn't read ends it.
pub fn gather<F: Files>(
    alloc: Global,
    wanted: Vec<Wanted>,
    files: &mut F,
) -> Result<Seq<Bytes>, PacFault>
    ensures { Gathers wanted.items
        (shelf (F.told files.old) (F.asked files.old) (F.faults files.old))
        (shelf (F.told files.new) (F.asked files.new) (F.faults files.new))
        result }
{
    let mut inputs = Seq::new(alloc);
    for file in wanted {
        let bytes = read(alloc, file, files)?;
        inputs.push(bytes)?;
    }
    Ok(inputs)
}

/// The bytes of a file.
fn read<F: Files>(alloc: Global, file: Wanted, files: &mut F) -> Result<Bytes, PacFault>
    ensures { Reads file
        (shelf (F.told files.old) (F.asked files.old) (F.faults files.old))
        (shelf (F.told files.new) (F.asked files.new) (F.faults files.new))
        result }
{
    let Wanted { name, limit } = file;
    match files.read(alloc, name.as_str(), limit) {
        Ok(bytes) => Ok(bytes),
        Err(FilesFault::Failed) => Err(PacFault::Read { name }),
        Err(FilesFault::TooLong { limit }) => {
            Err(PacFault::Limit(LimitFault::FileTooLong { name, limit }))
        }
        Err(FilesFault::Memory) => Err(PacFault::Memory),
    }
}
