ghost use Rattle.std.specs.Prelude.{◌≡◌, Some, OnOk, OnErr};
ghost use Rattle.pac_io.specs.Reading.{ReadsFile, FilesCause};
ghost use Rattle.pac_io.specs.Asking.{Asks};
ghost use Rattle.pac_io.specs.MemFiles.{file_at, names_asked, has_to_fail, FailsWhere, HoldsNothing, SameFiles, SetsFile, ListsCall, CountsCall};

use crate::bytes::Bytes;
use crate::calls::Calls;
use crate::fault::FilesFault;
use crate::files::Files;
use pac_base::NoMemory;
use std::alloc::Global;
use std::collections::BTreeMap;

/// Files in memory, of which reads can be made to fail.
#[derive(Drop)]
pub struct MemFiles {
    alloc: Global,
    files: BTreeMap<String, Vec<u8>>,
    asked: Vec<Bytes>,
    calls: Calls,
}

impl MemFiles {
    /// No files, and no call that is to fail. Takes no memory.
    pub fn new(alloc: Global) -> MemFiles
        ensures { HoldsNothing result }
    {
        MemFiles {
            alloc,
            files: BTreeMap::new(alloc),
            asked: Vec::new(alloc),
            calls: Calls::new(alloc),
        }
    }

    /// Sets the bytes of one file.
    pub fn add(&mut self, name: &str, bytes: &[u8]) -> Result<(), NoMemory>
        ensures ok { OnOk result (SetsFile self.old self.new name.now bytes.now) }
        ensures refused { OnErr result (SameFiles self.old self.new) }
    {
        let key = String::from_str(self.alloc, name)?;
        let value = Vec::from_slice(self.alloc, bytes)?;
        let _before = self.files.insert(key, value)?;
        Ok(())
    }

    /// Lists one more call of `read` that is to fail. Calls are numbered from 1, failed ones
    /// included, and the number stays at `u64::MAX`.
    pub fn fail(&mut self, call: u64) -> Result<(), NoMemory>
        ensures ok { OnOk result (ListsCall self.old self.new call) }
        ensures refused { OnErr result (SameFiles self.old self.new) }
    {
        self.calls.list(call)
    }
}

impl Files for MemFiles {
    ghost told = { λ held. Some (file_at held) };

    ghost asked = { λ held. Some (names_asked held) };

    ghost faults = { λ held. held.calls.faults };

    fn read(&mut self, alloc: Global, name: &str, limit: u64) -> Result<Bytes, FilesFault>
        ensures content { ReadsFile (Some (file_at self.old)) name.now limit result }
        ensures cause { FilesCause result self.old.calls.faults self.new.calls.faults }
        ensures same { Some (file_at self.new) ≡ Some (file_at self.old) }
        ensures asks { Asks result (Some (names_asked self.old)) (Some (names_asked self.new)) name.now }

        // `Failed` comes exactly where the call is listed or the name isn't in the map.
        ensures failed { FailsWhere (has_to_fail self.old name.now) result }
        ensures counts { CountsCall self.old self.new }
    {
        let is_to_fail = self.calls.begin();
        let asked = Bytes::copied(self.alloc, name.as_bytes())?;
        self.asked.push(asked)?;
        match self.files.get(name) {
            Some(bytes) if !is_to_fail => {
                if bytes.len() as u64 > limit {
                    return Err(FilesFault::TooLong { limit });
                }
                Ok(Bytes::copied(alloc, bytes.as_slice())?)
            }
            _ => {
                self.calls.count_fault();
                Err(FilesFault::Failed)
            }
        }
    }
}
