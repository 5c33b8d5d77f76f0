ghost use Rattle.std.specs.Prelude.{◌≤◌, ◌<◌, ◌+◌, ◌^◌};
ghost use Rattle.pac_base.specs.Widths.{bits_of};
ghost use Rattle.pac_bus.specs.Answers.{Describes, Presets, Readies, Reads, Writes, a_preset, a_write};
ghost use Rattle.pac_bus.specs.Telling.{BusTold};
ghost use Rattle.pac_bus.specs.Widths.{bytes_of};

use crate::access::BusFailed;
use crate::device_row::DevRows;
use pac_base::{NoMemory, Width};

/// What registers are read from and written to. Values are below 2 to the bits of their width, and an
/// access ends within 64 bits of address.
pub trait Bus: Drop {
    // What the bus tells: its accesses and presets, room, what it gives, its device, its count of faults.
    ghost told: { Self → BusTold };

    /// Makes room for `accesses` more accesses.
    fn ready(&mut self, accesses: u64) -> Result<(), NoMemory>
        ensures { Readies result (told self.old) (told self.new) accesses };

    /// Puts a word behind the bus without an access.
    fn preset(&mut self, address: u64, width: Width, value: u64) -> Result<(), NoMemory>
        requires reach { address + bytes_of width ≤ 2 ^ 64 }
        requires word { value < 2 ^ bits_of width }
        ensures { Presets result (told self.old) (told self.new) (a_preset address width value) };

    /// Reads a word. Takes no memory: there has to be room.
    fn read(&mut self, address: u64, width: Width) -> Result<u64, BusFailed>
        requires reach { address + bytes_of width ≤ 2 ^ 64 }
        requires room { 1 ≤ (told self.old).spare }
        ensures { Reads result (told self.old) (told self.new) address width };

    /// Writes a word. Takes no memory: there has to be room.
    fn write(&mut self, address: u64, width: Width, value: u64) -> Result<(), BusFailed>
        requires reach { address + bytes_of width ≤ 2 ^ 64 }
        requires room { 1 ≤ (told self.old).spare }
        requires word { value < 2 ^ bits_of width }
        ensures { Writes result (told self.old) (told self.new) (a_write address width value) };

    /// Says which registers the device behind the bus has, where the bus tells a device.
    fn describe(&mut self, rows: &DevRows) -> Result<(), NoMemory>
        ensures { Describes result (told self.old) (told self.new) rows.now };
}
