ghost use Rattle.std.specs.Prelude.{◌≡◌, ◌≤◌, ◌<◌, ◌+◌, ◌^◌, OnOk};
ghost use Rattle.pac_bus.specs.Memory.{value_at, with_value, zeros};
ghost use Rattle.pac_bus.specs.Stores.{memory_of, room_of, with_byte};

use crate::written::{Written, latest_at};
use pac_base::NoMemory;
use std::alloc::Global;
use std::collections::BTreeMap;

/// Bytes at addresses. Those that are held are overwritten in place; others that are written are sought from
/// the first to the last, so what is read often should be held.
#[derive(Drop)]
pub(crate) struct Store {
    held: BTreeMap<u64, u8>,
    /// The other written bytes, the latest last.
    written: Vec<Written>,
}

impl Store {
    /// All bytes are 0.
    pub(crate) fn new(alloc: Global) -> Store
        ensures room { room_of result ≡ 0 }
        ensures memory { memory_of result ≡ zeros }
    {
        Store {
            held: BTreeMap::new(alloc),
            written: Vec::new(alloc),
        }
    }

    /// The byte at an address.
    fn byte(&self, address: u64) -> u8
        ensures { result ≡ memory_of self.now address }
    {
        match self.held.get(&address) {
            Some(&byte) => byte,
            None => latest_at(self.written.as_slice(), address),
        }
    }

    /// Holds the byte at an address.
    fn hold(&mut self, address: u64) -> Result<(), NoMemory>
        ensures memory { memory_of self.new ≡ memory_of self.old }
        ensures room { room_of self.new ≡ room_of self.old }
    {
        let byte = self.byte(address);
        self.held.insert(address, byte)?;
        Ok(())
    }

    /// Sets a byte, for which there is room.
    fn put(&mut self, address: u64, byte: u8)
        requires { 1 ≤ room_of self.old }
        ensures memory { memory_of self.new ≡ with_byte (memory_of self.old) address byte }
        ensures room { room_of self.old ≤ room_of self.new + 1 }
    {
        if self.held.contains_key(&address) {
            match self.held.insert(address, byte) {
                Ok(_) => (),
                Err(_) => unreachable!(),
            }
            return;
        }
        match self.written.push(Written { address, byte }) {
            Ok(()) => (),
            Err(_) => unreachable!(),
        }
    }

    /// Makes room for that many more bytes.
    pub(crate) fn reserve(&mut self, bytes: usize) -> Result<(), NoMemory>
        ensures memory { memory_of self.new ≡ memory_of self.old }
        ensures room { room_of self.old ≤ room_of self.new }
        ensures ok { OnOk result (bytes ≤ room_of self.new) }
    {
        self.written.reserve_exact(bytes)?;
        Ok(())
    }

    /// The value of some bytes from an address on, little end first.
    pub(crate) fn value(&self, address: u64, bytes: u64) -> u64
        requires reach { address + bytes ≤ 2 ^ 64 }
        requires few { bytes ≤ 8 }
        ensures value { result ≡ value_at (memory_of self.now) address bytes }
        ensures below { result < 256 ^ bytes }
    {
        let mut value = 0;
        let mut at = bytes;
        while at > 0 {
            at -= 1;
            value = value * 256 + u64::from(self.byte(address + at));
        }
        value
    }

    /// Sets some bytes from an address on to those of a value, little end first. There has to be room for them.
    pub(crate) fn put_value(&mut self, address: u64, bytes: u64, value: u64)
        requires reach { address + bytes ≤ 2 ^ 64 }
        requires room { bytes ≤ room_of self.old }
        ensures memory { memory_of self.new ≡ with_value (memory_of self.old) address bytes value }
        ensures room { room_of self.old ≤ room_of self.new + bytes }
    {
        let mut rest = value;
        for at in 0..bytes {
            self.put(address + at, (rest % 256) as u8);
            rest /= 256;
        }
    }

    /// Holds some bytes from an address on, and makes room for as many more than there was.
    pub(crate) fn hold_all(&mut self, address: u64, bytes: u64) -> Result<(), NoMemory>
        requires reach { address + bytes ≤ 2 ^ 64 }
        requires few { bytes ≤ 8 }
        ensures memory { memory_of self.new ≡ memory_of self.old }
        ensures room { room_of self.old ≤ room_of self.new }
        ensures ok { OnOk result (room_of self.old + bytes ≤ room_of self.new) }
    {
        let room = self.written.capacity() - self.written.len();
        let Some(wanted) = room.checked_add(bytes as usize) else {
            return Err(NoMemory);
        };
        self.reserve(wanted)?;
        for at in 0..bytes {
            self.hold(address + at)?;
        }
        Ok(())
    }
}
