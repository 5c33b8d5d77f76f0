ghost use Rattle.std.specs.Prelude.{◌≡◌, ◌++◌, ◌∷◌, [], OnOk, OnErr};
ghost use Rattle.pac_io.specs.Calls.{listed, next_number, fails_next, IsFresh, SameCalls};
ghost use Rattle.pac_io.specs.Rose.{Rose};

use pac_base::NoMemory;
use std::alloc::Global;

/// The calls of an object in memory, numbered from 1; the number stays at `u64::MAX`.
#[derive(Drop)]
pub(crate) struct Calls {
    /// The numbers of the calls that are to fail.
    listed: Vec<u64>,
    /// How many calls were made.
    made: u64,
    /// How many calls failed.
    faults: u64,
}

impl Calls {
    pub(crate) fn new(alloc: Global) -> Calls
        ensures { IsFresh result }
    {
        Calls {
            listed: Vec::new(alloc),
            made: 0,
            faults: 0,
        }
    }

    /// Lists one more call that is to fail.
    pub(crate) fn list(&mut self, call: u64) -> Result<(), NoMemory>
        ensures ok { OnOk result (listed self.new ≡ listed self.old ++ call ∷ []) }
        ensures made { self.new.made ≡ self.old.made }
        ensures faults { self.new.faults ≡ self.old.faults }
        ensures err { OnErr result (SameCalls self.old self.new) }
    {
        self.listed.push(call)?;
        Ok(())
    }

    /// Counts one more call, and answers whether it is to fail.
    pub(crate) fn begin(&mut self) -> bool
        ensures fails { result ≡ fails_next self.old }
        ensures made { self.new.made ≡ next_number self.old.made }
        ensures listed { listed self.new ≡ listed self.old }
        ensures faults { self.new.faults ≡ self.old.faults }
    {
        self.made = self.made.saturating_add(1);
        self.listed.contains(&self.made)
    }

    /// Counts one more failure.
    pub(crate) fn count_fault(&mut self)
        ensures rose { Rose self.old.faults self.new.faults }
        ensures made { self.new.made ≡ self.old.made }
        ensures listed { listed self.new ≡ listed self.old }
    {
        self.faults = self.faults.saturating_add(1);
    }
}
