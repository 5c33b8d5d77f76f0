use crate::access::BusFailed;
use crate::bus::Bus;
use crate::device_row::DevRows;
use pac_base::{NoMemory, Width};

/// A bus of any kind, boxed. It hands each call on, and tells what the boxed bus tells.
#[derive(Drop)]
pub struct AnyBus {
    /// The boxed bus.
    pub bus: Box<dyn Bus>,
}

impl Bus for AnyBus {
    ghost told = { λ any. (Bus-box any.bus).told any.bus.value };

    fn ready(&mut self, accesses: u64) -> Result<(), NoMemory> {
        self.bus.ready(accesses)
    }

    fn preset(&mut self, address: u64, width: Width, value: u64) -> Result<(), NoMemory> {
        self.bus.preset(address, width, value)
    }

    fn read(&mut self, address: u64, width: Width) -> Result<u64, BusFailed> {
        self.bus.read(address, width)
    }

    fn write(&mut self, address: u64, width: Width, value: u64) -> Result<(), BusFailed> {
        self.bus.write(address, width, value)
    }

    fn describe(&mut self, rows: &DevRows) -> Result<(), NoMemory> {
        self.bus.describe(rows)
    }
}
