ghost use Rattle.std.specs.Prelude.{◌≡◌, None, [], Some};
ghost use Rattle.std.specs.Option.{option_map};
ghost use Rattle.pac_io.specs.Reading.{ReadsFile};
ghost use Rattle.pac_io.specs.StdFiles.{count_of};

use crate::bytes::Bytes;
use crate::fault::FilesFault;
use crate::files::Files;
use std::alloc::Global;
use std::io::{ErrorKind, Read};
use std::{fs, rt};

// How many bytes are asked for at once.
const PIECE: usize = 16_384;

/// The files of the runtime.
#[derive(Drop)]
pub struct StdFiles<R> {
    runtime: R,
    faults: u64,
}

impl<R> StdFiles<R> {
    /// The files that this runtime reaches, of which no read has failed. Takes no memory.
    pub fn new(runtime: R) -> StdFiles<R>
        ensures { count_of result ≡ 0 }
    {
        StdFiles { runtime, faults: 0 }
    }
}

impl<R: rt::Files> Files for StdFiles<R> {
    ghost told = { λ _. None };

    ghost asked = { λ _. None };

    ghost faults = { count_of };

    fn read(&mut self, alloc: Global, name: &str, limit: u64) -> Result<Bytes, FilesFault> {
        let Ok(mut file) = fs::open(&self.runtime, name) else {
            self.faults = self.faults.saturating_add(1);
            return Err(FilesFault::Failed);
        };
        match read_up_to(alloc, &mut file, limit) {
            Err(FilesFault::Failed) => {
                self.faults = self.faults.saturating_add(1);
                Err(FilesFault::Failed)
            }
            answer => answer,
        }
    }
}

/// Reads to the end, but no more than one byte past the limit. A read that gives nothing is the
/// end; one that was interrupted is tried again.
fn read_up_to<R: Read>(alloc: Global, reader: &mut R, limit: u64) -> Result<Bytes, FilesFault>
    // Where the reader tells its bytes, the file is these, whatever its name.
    ensures { ReadsFile (option_map (λ bytes _. Some bytes) (R.remaining reader.old)) [] limit result }
{
    let mut held = Vec::new(alloc);
    let mut piece = [0u8; PIECE];
    'reads: for _ in 0..u64::MAX {
        let room = limit - held.len() as u64;
        let wanted = if room < PIECE as u64 {
            room as usize + 1
        } else {
            PIECE
        };
        match reader.read(&mut piece[..wanted]) {
            Ok(0) => return Ok(Bytes::of(held)),
            Ok(given) => held.extend_from_slice(&piece[..given])?,
            Err(error) if error.kind() == ErrorKind::Interrupted => {}
            Err(_) => return Err(FilesFault::Failed),
        }
        if held.len() as u64 > limit {
            return Err(FilesFault::TooLong { limit });
        }
    }
    Err(FilesFault::Failed)
}
