ghost use Rattle.std.specs.Prelude.{Some};

use pac_io::{Sink, SinkFault};

/// What was written, in memory: a sink that fails for want of memory alone.
#[derive(Drop)]
pub(crate) struct Held {
    pub(crate) bytes: Vec<u8>,
}

impl Sink for Held {
    ghost written = { λ held. Some held.bytes.items };

    // No write fails.
    ghost faults = { λ _. 0 };

    fn write_all(&mut self, bytes: &[u8]) -> Result<(), SinkFault> {
        self.bytes.extend_from_slice(bytes)?;
        Ok(())
    }
}
