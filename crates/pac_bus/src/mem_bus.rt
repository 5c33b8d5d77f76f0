ghost use Rattle.std.specs.Prelude.{◌≡◌, ◌≤◌, ◌<◌, ◌+◌, ◌^◌, IsOk};
ghost use Rattle.pac_base.specs.Widths.{bits_of};
ghost use Rattle.pac_bus.specs.Acts.Gives.{Bytes};
ghost use Rattle.pac_bus.specs.Answers.{Reads, Writes, a_write};
ghost use Rattle.pac_bus.specs.MemBus.{mem_told};
ghost use Rattle.pac_bus.specs.Memory.{zeros};
ghost use Rattle.pac_bus.specs.Telling.{HoldsNothing};
ghost use Rattle.pac_bus.specs.Widths.{bytes_of};

use crate::access::BusFailed;
use crate::bus::Bus;
use crate::device_row::DevRows;
use crate::journal::Journal;
use crate::store::Store;
use pac_base::{NoMemory, Width};
use std::alloc::Global;

/// A bus over bytes in memory, all 0 at first. It never fails. A byte that was preset is overwritten in
/// place, in logarithmic time; other bytes are sought among all that were written so.
#[derive(Drop)]
pub struct MemBus {
    journal: Journal,
    store: Store,
}

impl MemBus {
    /// A bus with nothing done. Takes no memory.
    pub fn new(alloc: Global) -> MemBus
        ensures nothing { HoldsNothing (mem_told result) }
        ensures zeros { (mem_told result).gives ≡ Bytes zeros }
    {
        MemBus {
            journal: Journal::new(alloc),
            store: Store::new(alloc),
        }
    }
}

impl Bus for MemBus {
    ghost told = { mem_told };

    fn ready(&mut self, accesses: u64) -> Result<(), NoMemory> {
        let Some(bytes) = accesses.checked_mul(8) else {
            return Err(NoMemory);
        };
        self.journal.reserve(accesses)?;
        self.store.reserve(bytes as usize)
    }

    fn preset(&mut self, address: u64, width: Width, value: u64) -> Result<(), NoMemory> {
        self.store.hold_all(address, width.bytes())?;
        self.journal.preset(address, width, value)?;
        self.store.put_value(address, width.bytes(), value);
        Ok(())
    }

    fn read(&mut self, address: u64, width: Width) -> Result<u64, BusFailed>
        requires reach { address + bytes_of width ≤ 2 ^ 64 }
        requires room { 1 ≤ (mem_told self.old).spare }
        ensures read { Reads result (mem_told self.old) (mem_told self.new) address width }
        ensures never_fails { IsOk result }
    {
        let value = self.store.value(address, width.bytes());
        self.journal.read(address, width, value);
        Ok(value)
    }

    fn write(&mut self, address: u64, width: Width, value: u64) -> Result<(), BusFailed>
        requires reach { address + bytes_of width ≤ 2 ^ 64 }
        requires room { 1 ≤ (mem_told self.old).spare }
        requires word { value < 2 ^ bits_of width }
        ensures written { Writes result (mem_told self.old) (mem_told self.new) (a_write address width value) }
        ensures never_fails { IsOk result }
    {
        self.store.put_value(address, width.bytes(), value);
        self.journal.write(address, width, value);
        Ok(())
    }

    fn describe(&mut self, _rows: &DevRows) -> Result<(), NoMemory> {
        Ok(())
    }
}
