ghost use Rattle.std.specs.Prelude.{ℕ, ◌≡◌, List, Option};
ghost use Rattle.pac_io.specs.Reading.{ReadsFile, FilesCause};
ghost use Rattle.pac_io.specs.Asking.{Asks};

use crate::bytes::Bytes;
use crate::fault::FilesFault;
use std::alloc::Global;

/// What files are read from.
pub trait Files {
    // The bytes at each name, where they are told.
    ghost told: { Self → Option (List ℕ → Option (List ℕ)) };

    // The names of the reads so far, in order, where they are told.
    ghost asked: { Self → Option (List (List ℕ)) };

    // How many reads failed. It never falls, and stays at 2^64 - 1.
    ghost faults: { Self → ℕ };

    /// Reads the file of this name, if it has at most `limit` bytes.
    fn read(&mut self, alloc: Global, name: &str, limit: u64) -> Result<Bytes, FilesFault>
        // Ok gives the bytes of the file, and `TooLong` comes exactly where it has more than `limit`.
        ensures content { ReadsFile (told self.old) name.now limit result }

        // `Failed` comes only where the count of faults rose.
        ensures cause { FilesCause result (faults self.old) (faults self.new) }

        ensures same { told self.new ≡ told self.old }
        ensures asks { Asks result (asked self.old) (asked self.new) name.now };
}
