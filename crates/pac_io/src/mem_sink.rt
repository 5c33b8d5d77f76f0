ghost use Rattle.std.specs.Prelude.{◌≡◌, Some, OnOk, OnErr};
ghost use Rattle.pac_io.specs.Writing.{Writes, SinkCause};
ghost use Rattle.pac_io.specs.Calls.{fails_next};
ghost use Rattle.pac_io.specs.MemSink.{bytes_written, FailsWhere, HoldsNothing, SameSink, ListsCall, CountsCall};

use crate::calls::Calls;
use crate::fault::SinkFault;
use crate::sink::Sink;
use pac_base::NoMemory;
use std::alloc::Global;

/// A sink in memory, of which writes can be made to fail.
#[derive(Drop)]
pub struct MemSink {
    bytes: Vec<u8>,
    calls: Calls,
}

impl MemSink {
    /// Nothing written, and no call that is to fail. Takes no memory.
    pub fn new(alloc: Global) -> MemSink
        ensures { HoldsNothing result }
    {
        MemSink {
            bytes: Vec::new(alloc),
            calls: Calls::new(alloc),
        }
    }

    /// Lists one more call of `write_all` that is to fail. Calls are numbered from 1, failed ones
    /// included, and the number stays at `u64::MAX`.
    pub fn fail(&mut self, call: u64) -> Result<(), NoMemory>
        ensures ok { OnOk result (ListsCall self.old self.new call) }
        ensures refused { OnErr result (SameSink self.old self.new) }
    {
        self.calls.list(call)
    }

    /// The bytes written so far. Takes no memory.
    pub fn written(&self) -> &[u8]
        ensures { result.now ≡ bytes_written self.now }
    {
        self.bytes.as_slice()
    }
}

impl Sink for MemSink {
    ghost written = { λ held. Some (bytes_written held) };

    ghost faults = { λ held. held.calls.faults };

    fn write_all(&mut self, bytes: &[u8]) -> Result<(), SinkFault>
        ensures growth { Writes result (Some (bytes_written self.old)) (Some (bytes_written self.new)) bytes.now }
        ensures cause { SinkCause result self.old.calls.faults self.new.calls.faults }

        // `Failed` comes exactly where the call is listed.
        ensures failed { FailsWhere (fails_next self.old.calls) result }
        ensures counts { CountsCall self.old self.new }
    {
        if self.calls.begin() {
            self.calls.count_fault();
            return Err(SinkFault::Failed);
        }
        self.bytes.extend_from_slice(bytes)?;
        Ok(())
    }
}
