ghost use Rattle.std.specs.Prelude.{◌≡◌, ◌≤◌, [], OnOk, OnErr};
ghost use Rattle.pac_bus.specs.Answers.{a_preset, a_read, a_write};
ghost use Rattle.pac_bus.specs.Journals.{IsLogged, IsPreset};

use crate::access::{BusAccess, Preset};
use pac_base::{NoMemory, Width};
use std::alloc::Global;
use std::marker::Model;

/// What a bus keeps of its calls, in order.
#[derive(Drop)]
pub(crate) struct Journal {
    accesses: Vec<BusAccess>,
    presets: Vec<Preset>,
}

impl Model for Journal {
    ghost use Rattle.std.specs.Prelude.{◌-◌, vec_len, vec_capacity};
    ghost use Rattle.pac_bus.specs.Journals.{History};

    ghost Value = { History };

    ghost view = { λ journal. record { log = journal.accesses.items; set = journal.presets.items; spare = vec_capacity journal.accesses - vec_len journal.accesses } };
}

impl Journal {
    pub(crate) fn new(alloc: Global) -> Journal
        ensures { result ≡ record { log = []; set = []; spare = 0 } }
    {
        Journal {
            accesses: Vec::new(alloc),
            presets: Vec::new(alloc),
        }
    }

    /// Makes room for that many more accesses.
    pub(crate) fn reserve(&mut self, accesses: u64) -> Result<(), NoMemory>
        ensures log { self.new.log ≡ self.old.log }
        ensures set { self.new.set ≡ self.old.set }
        ensures spare { self.old.spare ≤ self.new.spare }
        ensures room { OnOk result (accesses ≤ self.new.spare) }
    {
        self.accesses.reserve(accesses as usize)?;
        Ok(())
    }

    /// Adds a preset.
    pub(crate) fn preset(&mut self, address: u64, width: Width, value: u64) -> Result<(), NoMemory>
        ensures ok { OnOk result (IsPreset self.old self.new (a_preset address width value)) }
        ensures refused { OnErr result (self.new ≡ self.old) }
    {
        self.presets.push(Preset {
            address,
            width,
            value,
        })?;
        Ok(())
    }

    /// Adds a read, for which there is room.
    pub(crate) fn read(&mut self, address: u64, width: Width, value: u64)
        requires { 1 ≤ self.old.spare }
        ensures { IsLogged self.old self.new (a_read address width value) }
    {
        self.access(BusAccess {
            write: false,
            address,
            width,
            value,
        });
    }

    /// Adds a write, for which there is room.
    pub(crate) fn write(&mut self, address: u64, width: Width, value: u64)
        requires { 1 ≤ self.old.spare }
        ensures { IsLogged self.old self.new (a_write address width value) }
    {
        self.access(BusAccess {
            write: true,
            address,
            width,
            value,
        });
    }

    fn access(&mut self, access: BusAccess)
        requires { 1 ≤ self.old.spare }
        ensures { IsLogged self.old self.new access }
    {
        match self.accesses.push(access) {
            Ok(()) => (),
            Err(_) => unreachable!(),
        }
    }
}
