ghost use Rattle.std.specs.Prelude.{◌≤◌, ◌<◌, ◌+◌, ◌^◌, IsOk};
ghost use Rattle.pac_base.specs.Widths.{bits_of};
ghost use Rattle.pac_bus.specs.Answers.{Reads, Writes, a_write};
ghost use Rattle.pac_bus.specs.Telling.{HoldsNothing};
ghost use Rattle.pac_bus.specs.Widths.{bytes_of};
ghost use Rattle.pac_bus.specs.ZeroBus.{zero_told};

use crate::access::BusFailed;
use crate::bus::Bus;
use crate::device_row::DevRows;
use crate::journal::Journal;
use pac_base::{NoMemory, Width};
use std::alloc::Global;

/// A bus of which every read answers 0. It never fails.
#[derive(Drop)]
pub struct ZeroBus {
    journal: Journal,
}

impl ZeroBus {
    /// A bus with nothing done. Takes no memory.
    pub fn new(alloc: Global) -> ZeroBus
        ensures { HoldsNothing (zero_told result) }
    {
        ZeroBus {
            journal: Journal::new(alloc),
        }
    }
}

impl Bus for ZeroBus {
    ghost told = { zero_told };

    fn ready(&mut self, accesses: u64) -> Result<(), NoMemory> {
        self.journal.reserve(accesses)
    }

    fn preset(&mut self, address: u64, width: Width, value: u64) -> Result<(), NoMemory> {
        self.journal.preset(address, width, value)
    }

    fn read(&mut self, address: u64, width: Width) -> Result<u64, BusFailed>
        requires reach { address + bytes_of width ≤ 2 ^ 64 }
        requires room { 1 ≤ (zero_told self.old).spare }
        ensures read { Reads result (zero_told self.old) (zero_told self.new) address width }
        ensures never_fails { IsOk result }
    {
        self.journal.read(address, width, 0);
        Ok(0)
    }

    fn write(&mut self, address: u64, width: Width, value: u64) -> Result<(), BusFailed>
        requires reach { address + bytes_of width ≤ 2 ^ 64 }
        requires room { 1 ≤ (zero_told self.old).spare }
        requires word { value < 2 ^ bits_of width }
        ensures written { Writes result (zero_told self.old) (zero_told self.new) (a_write address width value) }
        ensures never_fails { IsOk result }
    {
        self.journal.write(address, width, value);
        Ok(())
    }

    fn describe(&mut self, _rows: &DevRows) -> Result<(), NoMemory> {
        Ok(())
    }
}
