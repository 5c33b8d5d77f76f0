ghost use Rattle.std.specs.Prelude.{ℕ, ◌≡◌, ◌++◌, [], List, OnOk, OnErr, decimal};
ghost use Rattle.pac_io.specs.Numerals.{hexadecimal};
ghost use Rattle.pac_io.specs.Writing.{Writes, WritesUpTo, SinkCause};

use crate::fault::SinkFault;
use crate::numeral::write_hexadecimal;
use crate::sink::Sink;
use itoa::Buffer;
use pac_base::NoMemory;
use std::alloc::Global;
use std::marker::Model;

// How many bytes make a page full.
const FULL: usize = 65_536;

const ZEROS: [u8; 255] = [b'0'; 255];

/// Text on its way to a sink, which gets it in pieces of about 64 KiB. Seen as the bytes held.
#[derive(Drop)]
pub struct Page {
    text: Vec<u8>,
}

impl Model for Page {
    ghost Value = { List ℕ };

    ghost view = { λ page. page.text.items };
}

impl Page {
    /// An empty page. Takes no memory.
    pub fn new(alloc: Global) -> Page
        ensures { result ≡ [] }
    {
        Page {
            text: Vec::new(alloc),
        }
    }

    /// Appends bytes.
    pub fn push(&mut self, bytes: &[u8]) -> Result<(), NoMemory>
        ensures ok { OnOk result (self.new ≡ self.old ++ bytes.now) }
        ensures refused { OnErr result (self.new ≡ self.old) }
    {
        self.text.extend_from_slice(bytes)?;
        Ok(())
    }

    /// Appends a number in decimal.
    pub fn decimal(&mut self, number: u64) -> Result<(), NoMemory>
        ensures ok { OnOk result (self.new ≡ self.old ++ decimal number) }
        ensures refused { OnErr result (self.new ≡ self.old) }
    {
        let mut buffer = Buffer::new();
        self.push(buffer.format(number).as_bytes())
    }

    /// Appends a number in lower-case hexadecimal, with zeros in front up to `least` digits.
    pub fn hexadecimal(&mut self, number: u64, least: u8) -> Result<(), NoMemory>
        ensures ok { OnOk result (self.new ≡ self.old ++ hexadecimal least number) }
        ensures refused { OnErr result (self.new ≡ self.old) }
    {
        let mut text = [b'0'; 64];
        let start = write_hexadecimal(number, &mut text);
        let digits = &text[start..];
        let zeros = (least as usize).saturating_sub(digits.len());
        self.push_both(&ZEROS[..zeros], digits)
    }

    fn push_both(&mut self, front: &[u8], back: &[u8]) -> Result<(), NoMemory>
        ensures ok { OnOk result (self.new ≡ self.old ++ (front.now ++ back.now)) }
        ensures refused { OnErr result (self.new ≡ self.old) }
    {
        let before = self.text.len();
        self.text.extend_from_slice(front)?;
        if let Err(refused) = self.text.extend_from_slice(back) {
            self.text.truncate(before);
            return Err(NoMemory::from(refused));
        }
        Ok(())
    }

    /// Appends bytes, and hands the text on to the sink if the page is full.
    pub fn put<S: Sink>(&mut self, bytes: &[u8], sink: &mut S) -> Result<(), SinkFault>
        ensures growth { WritesUpTo result (S.written sink.old) (S.written sink.new) (self.old ++ bytes.now) self.new }
        ensures cause { SinkCause result (S.faults sink.old) (S.faults sink.new) }
    {
        self.push(bytes)?;
        self.turn(sink)
    }

    /// Hands the text on to the sink if the page is full.
    pub fn turn<S: Sink>(&mut self, sink: &mut S) -> Result<(), SinkFault>
        ensures growth { WritesUpTo result (S.written sink.old) (S.written sink.new) self.old self.new }
        ensures cause { SinkCause result (S.faults sink.old) (S.faults sink.new) }
    {
        if self.text.len() < FULL {
            return Ok(());
        }
        sink.write_all(self.text.as_slice())?;
        self.text.clear();
        Ok(())
    }

    /// Hands the rest of the text on to the sink.
    pub fn finish<S: Sink>(self, sink: &mut S) -> Result<(), SinkFault>
        ensures growth { Writes result (S.written sink.old) (S.written sink.new) self }
        ensures cause { SinkCause result (S.faults sink.old) (S.faults sink.new) }
    {
        sink.write_all(self.text.as_slice())
    }
}
