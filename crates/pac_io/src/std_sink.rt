ghost use Rattle.std.specs.Prelude.{◌≡◌, IfSome, IfNone};
ghost use Rattle.std.specs.Bool.{OnTrue, OnFalse};
ghost use Rattle.std.specs.Io.KnownBytes.{Appends};
ghost use Rattle.pac_io.specs.WrittenUpTo.{WrittenUpTo};
ghost use Rattle.pac_io.specs.Writing.{AppendsPrefix};
ghost use Rattle.pac_io.specs.StdSink.{writer_of, count_of};

use crate::fault::SinkFault;
use crate::sink::Sink;
use std::io::{ErrorKind, Write};

/// A sink over a std writer.
#[derive(Drop)]
pub struct StdSink<W> {
    writer: W,
    faults: u64,
}

impl<W> StdSink<W> {
    /// A sink over this writer, of which no write has failed. Takes no memory.
    pub fn new(writer: W) -> StdSink<W>
        ensures writer { writer_of result ≡ writer }
        ensures count { count_of result ≡ 0 }
    {
        StdSink { writer, faults: 0 }
    }
}

impl<W: Write> Sink for StdSink<W> {
    ghost written = { λ sink. W.contents (writer_of sink) };

    ghost faults = { count_of };

    fn write_all(&mut self, bytes: &[u8]) -> Result<(), SinkFault> {
        if write_whole(&mut self.writer, bytes) {
            return Ok(());
        }
        self.faults = self.faults.saturating_add(1);
        Err(SinkFault::Failed)
    }
}

/// Writes all of the bytes, or answers that this failed.
fn write_whole<W: Write>(writer: &mut W, bytes: &[u8]) -> bool
    ensures whole { OnTrue result (Appends (W.contents writer.old) (W.contents writer.new) bytes.now) }
    ensures broken { OnFalse result (AppendsPrefix (W.contents writer.old) (W.contents writer.new) bytes.now) }
{
    let mut rest = bytes;
    'writes: for _ in 0..u64::MAX {
        if rest.is_empty() {
            return true;
        }
        let Some(left) = write_some(writer, rest) else {
            return false;
        };
        rest = left;
    }
    false
}

/// Writes once, and answers what is left: all of it where the write was interrupted. None is a
/// failure, as a write is that takes nothing.
fn write_some<'a, W: Write>(writer: &mut W, bytes: &'a [u8]) -> Option<&'a [u8]>
    ensures some { IfSome result (λ left. WrittenUpTo (W.contents writer.old) (W.contents writer.new) bytes.now left.now) }
    ensures broken { IfNone result (AppendsPrefix (W.contents writer.old) (W.contents writer.new) bytes.now) }
{
    match writer.write(bytes) {
        Ok(0) => None,
        Ok(taken) => Some(bytes.split_at(taken).1),
        Err(error) if error.kind() == ErrorKind::Interrupted => Some(bytes),
        Err(_) => None,
    }
}
