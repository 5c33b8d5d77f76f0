ghost use Rattle.std.specs.Prelude.{◌≡◌, ◌++◌, ◌∷◌, [], ◌+◌, ◌≤◌, length, IsOk, OnOk, OnErr, slice_get};
ghost use Rattle.std.specs.Option.{option_copied};

use pac_base::{NoMemory, Width};
use std::alloc::Global;
use std::marker::Model;

/// What a run did: an access of the bus, or what it said.
#[derive(Drop)]
pub enum Event {
    /// A read of the bus.
    Read {
        /// The address of the first byte.
        address: u64,
        /// How wide the access is.
        width: Width,
        /// What was read.
        value: u64,
    },
    /// A write to the bus.
    Write {
        /// The address of the first byte.
        address: u64,
        /// How wide the access is.
        width: Width,
        /// What was written.
        value: u64,
    },
    /// A value that was said.
    Say(Said),
}

/// A value that was said.
#[derive(Drop)]
pub enum Said {
    /// A number.
    Number(u64),
    /// A truth.
    Truth(bool),
}

/// Events in their order, with room for more. Contracts see their list, and how many more can be
/// pushed without memory.
#[derive(Drop)]
pub struct Events {
    events: Vec<Event>,
}

impl Model for Events {
    ghost use Rattle.std.specs.Prelude.{◌-◌, vec_len, vec_capacity};
    ghost use Rattle.frag_tree.specs.EventLists.{EventList};

    ghost Value = { EventList };

    ghost view = { λ events. record { list = events.events.items; spare = vec_capacity events.events - vec_len events.events } };
}

impl Events {
    /// No events. Takes no memory.
    pub fn new(alloc: Global) -> Events
        ensures { result.list ≡ [] }
    {
        Events {
            events: Vec::new(alloc),
        }
    }

    /// Makes room for at least `n` more. The events stay.
    pub fn reserve(&mut self, n: u64) -> Result<(), NoMemory>
        ensures spare { OnOk result (n ≤ self.new.spare) }
        ensures list { self.new.list ≡ self.old.list }
    {
        self.events.reserve(n as usize)?;
        Ok(())
    }

    /// Adds an event at the end. Where there is room it takes no memory and is done. Where memory is
    /// wanting the events stay as they were.
    pub fn push(&mut self, event: Event) -> Result<(), NoMemory>
        ensures ok { OnOk result (self.new.list ≡ self.old.list ++ event ∷ []) }
        ensures refused { OnErr result (self.new.list ≡ self.old.list) }
        ensures succeeds { 1 ≤ self.old.spare → IsOk result }
        ensures spare { self.old.spare ≤ self.new.spare + 1 }
    {
        self.events.push(event)?;
        Ok(())
    }

    /// How many events there are.
    pub fn len(&self) -> usize
        ensures { result ≡ length self.now.list }
    {
        self.events.len()
    }

    /// The event at a place counted from 0. `None` where there aren't so many.
    pub fn get(&self, index: usize) -> Option<&Event>
        ensures { option_copied result ≡ slice_get self.now.list index }
    {
        self.events.get(index)
    }

    /// How many more events can be pushed without memory, at least.
    pub fn spare(&self) -> usize
        ensures { result ≡ self.now.spare }
    {
        self.events.capacity() - self.events.len()
    }

    /// The events, in order.
    pub fn as_slice(&self) -> &[Event]
        ensures { result.now ≡ self.now.list }
    {
        self.events.as_slice()
    }
}
