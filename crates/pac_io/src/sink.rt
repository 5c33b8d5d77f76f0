ghost use Rattle.std.specs.Prelude.{ℕ, List, Option};
ghost use Rattle.pac_io.specs.Writing.{Writes, SinkCause};

use crate::fault::SinkFault;

/// What text is written to.
pub trait Sink {
    // The bytes written so far, where they are told.
    ghost written: { Self → Option (List ℕ) };

    // How many writes failed. It never falls, and stays at 2^64 - 1.
    ghost faults: { Self → ℕ };

    /// Appends all of the bytes, or at a fault some first ones of them.
    fn write_all(&mut self, bytes: &[u8]) -> Result<(), SinkFault>
        ensures growth { Writes result (written self.old) (written self.new) bytes.now }

        // `Failed` comes only where the count of faults rose.
        ensures cause { SinkCause result (faults self.old) (faults self.new) };
}
