ghost use Rattle.std.specs.Prelude.{◌≡◌, ◌≤◌, ◌<◌, ◌+◌, ◌^◌, is_err, OnOk, OnErr};
ghost use Rattle.pac_base.specs.Widths.{bits_of};
ghost use Rattle.pac_bus.specs.Answers.{Failed, Reads, Writes, a_write};
ghost use Rattle.pac_bus.specs.FailBus.{CountsAccess, HoldsNothing, ListsAccess, SameBus, fail_told, fails_next};
ghost use Rattle.pac_bus.specs.Widths.{bytes_of};

use crate::access::BusFailed;
use crate::bus::Bus;
use crate::device_row::DevRows;
use crate::journal::Journal;
use pac_base::{NoMemory, Width};
use std::alloc::Global;

/// A bus of which every read answers 0, and of which accesses can be made to fail.
#[derive(Drop)]
pub struct FailBus {
    journal: Journal,
    /// The numbers of the accesses that are to fail.
    listed: Vec<u64>,
    /// How many accesses were asked for.
    made: u64,
    /// How many accesses failed.
    faults: u64,
}

impl FailBus {
    /// A bus with nothing done, and no access that is to fail. Takes no memory.
    pub fn new(alloc: Global) -> FailBus
        ensures { HoldsNothing result }
    {
        FailBus {
            journal: Journal::new(alloc),
            listed: Vec::new(alloc),
            made: 0,
            faults: 0,
        }
    }

    /// Lists one more access that is to fail. The calls of `read` and `write` are numbered from 1, failed
    /// ones included, and the number stays at `u64::MAX`.
    pub fn fail(&mut self, access: u64) -> Result<(), NoMemory>
        ensures ok { OnOk result (ListsAccess self.old self.new access) }
        ensures refused { OnErr result (SameBus self.old self.new) }
    {
        self.listed.push(access)?;
        Ok(())
    }

    /// Counts one more access, which fails if it is listed.
    fn begin(&mut self) -> Result<(), BusFailed>
        ensures failed { is_err result ≡ fails_next self.old }
        ensures counts { CountsAccess self.old self.new }
        ensures same { OnOk result (fail_told self.new ≡ fail_told self.old) }
        ensures rose { OnErr result (Failed (fail_told self.old) (fail_told self.new)) }
    {
        self.made = self.made.saturating_add(1);
        if self.listed.contains(&self.made) {
            self.faults = self.faults.saturating_add(1);
            return Err(BusFailed);
        }
        Ok(())
    }
}

impl Bus for FailBus {
    ghost told = { fail_told };

    fn ready(&mut self, accesses: u64) -> Result<(), NoMemory> {
        self.journal.reserve(accesses)
    }

    fn preset(&mut self, address: u64, width: Width, value: u64) -> Result<(), NoMemory> {
        self.journal.preset(address, width, value)
    }

    fn read(&mut self, address: u64, width: Width) -> Result<u64, BusFailed>
        requires reach { address + bytes_of width ≤ 2 ^ 64 }
        requires room { 1 ≤ (fail_told self.old).spare }
        ensures read { Reads result (fail_told self.old) (fail_told self.new) address width }

        // `BusFailed` comes exactly where the access is listed.
        ensures failed { is_err result ≡ fails_next self.old }
        ensures counts { CountsAccess self.old self.new }
    {
        self.begin()?;
        self.journal.read(address, width, 0);
        Ok(0)
    }

    fn write(&mut self, address: u64, width: Width, value: u64) -> Result<(), BusFailed>
        requires reach { address + bytes_of width ≤ 2 ^ 64 }
        requires room { 1 ≤ (fail_told self.old).spare }
        requires word { value < 2 ^ bits_of width }
        ensures written { Writes result (fail_told self.old) (fail_told self.new) (a_write address width value) }

        // `BusFailed` comes exactly where the access is listed.
        ensures failed { is_err result ≡ fails_next self.old }
        ensures counts { CountsAccess self.old self.new }
    {
        self.begin()?;
        self.journal.write(address, width, value);
        Ok(())
    }

    fn describe(&mut self, _rows: &DevRows) -> Result<(), NoMemory> {
        Ok(())
    }
}
