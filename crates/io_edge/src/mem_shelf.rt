ghost use Rattle.std.specs.Prelude.{◌≡◌, ◌≤◌, ◌↔◌, length, Some, IfOk, OnOk, OnErr, IsErrOf, IsTrue, is_err};
ghost use Rattle.std.specs.Option.{option_copied};
ghost use Rattle.std.specs.FinMap.{empty, get, insert};
ghost use Rattle.io_edge.specs.Edge.{bytes_of, HasRisen, HasRoom, KeepsRoom, KeepsOtherRoom, KeepsOthers};
ghost use Rattle.io_edge.specs.Memory.{shelf_faults, read_fails, after_read, after_write, next_fails, after_call};

use crate::calls::CallCounter;
use crate::store::Store;
use crate::{Failed, Named, ReadFail, Shelf};
use mach_base::OutOfMemory;
use std::alloc::Global;
use std::marker::Model;

/// A shelf in memory. The calls of `read` and of `write` are numbered from 0 together, and those of given numbers fail;
/// so does a read of a name that isn't there.
#[derive(Debug, Drop)]
pub struct MemShelf {
    store: Store,
    calls: CallCounter,
    missing: u64,
}

impl Model for MemShelf {
    ghost use Rattle.io_edge.specs.Memory.{MemShelfState, coded_mem_shelf};

    ghost Value = { MemShelfState };

    ghost coded = { coded_mem_shelf };

    ghost view = { λ s. record { files = s.store.files; rooms = s.store.rooms; calls = s.calls; missing = s.missing } };
}

impl MemShelf {
    ghost use Rattle.io_edge.specs.Memory.{file_map};

    /// A shelf of these files, of which the calls with these numbers fail. Of several files of one name the first
    /// counts. It takes no memory.
    pub fn new(alloc: Global, files: Vec<Named>, failing: Vec<u64>) -> MemShelf
        ensures files { result.files ≡ file_map files.items }
        ensures rooms { result.rooms ≡ empty }
        ensures made { result.calls.made ≡ 0 }
        ensures failing { result.calls.failing ≡ failing.items }
        ensures missing { result.missing ≡ 0 }
    {
        MemShelf {
            store: Store::new(alloc, files),
            calls: CallCounter::new(failing),
            missing: 0,
        }
    }

    /// The bytes of a name; None exactly where it isn't there.
    pub fn bytes(&self, name: &str) -> Option<&[u8]>
        ensures { option_copied result ≡ get self.now.files name.now }
    {
        self.store.bytes(name.as_bytes())
    }
}

impl Shelf for MemShelf {
    ghost contents = { λ s. Some s.files };

    ghost faults = { shelf_faults };

    ghost room = { λ s. get s.rooms };

    fn read(&mut self, alloc: Global, name: &str) -> Result<Vec<u8>, ReadFail>
        ensures fails { IsErrOf result ReadFail.Failed ↔ IsTrue (read_fails self.old name.now) }
        ensures done { OnOk result (self.new ≡ after_read self.old name.now) }
        ensures refused { IsErrOf result ReadFail.Failed → self.new ≡ after_read self.old name.now }
        ensures unchanged { IsErrOf result ReadFail.OutOfMemory → self.new ≡ self.old }

        // What every shelf owes.
        ensures bytes { IfOk result (λ bytes. bytes.items ≡ bytes_of self.old.files name.now) }
        ensures kept { self.new.files ≡ self.old.files }
        ensures room_kept { KeepsRoom (get self.old.rooms) (get self.new.rooms) }
        ensures count { shelf_faults self.old ≤ shelf_faults self.new }
        ensures failed { IsErrOf result ReadFail.Failed → HasRisen (shelf_faults self.old) (shelf_faults self.new) }
        ensures memory { IsErrOf result ReadFail.OutOfMemory → shelf_faults self.new ≡ shelf_faults self.old }
    {
        if self.calls.next_fails() {
            self.calls.count_one();
            return Err(ReadFail::Failed);
        }
        match self.store.bytes(name.as_bytes()) {
            Some(bytes) => {
                let bytes = Vec::from_slice(alloc, bytes)?;
                self.calls.count_one();
                Ok(bytes)
            }
            None => {
                self.calls.count_one();
                self.missing = self.missing.saturating_add(1);
                Err(ReadFail::Failed)
            }
        }
    }

    fn reserve(&mut self, name: &str, size: usize) -> Result<(), OutOfMemory>
        ensures calls { self.new.calls ≡ self.old.calls }
        ensures missing { self.new.missing ≡ self.old.missing }

        // What every shelf owes.
        ensures room_made { OnOk result (HasRoom (get self.new.rooms name.now) size) }
        ensures room_kept { KeepsRoom (get self.old.rooms) (get self.new.rooms) }
        ensures kept { self.new.files ≡ self.old.files }
        ensures count { shelf_faults self.new ≡ shelf_faults self.old }
    {
        self.store.reserve(name.as_bytes(), size)
    }

    fn write(&mut self, name: &str, bytes: &[u8]) -> Result<(), Failed>
        requires { HasRoom (get self.old.rooms name.now) (length bytes.now) }
        ensures fails { is_err result ≡ next_fails self.old.calls }
        ensures files { self.new.files ≡ after_write self.old name.now bytes.now }
        ensures calls { self.new.calls ≡ after_call self.old.calls }
        ensures missing { self.new.missing ≡ self.old.missing }

        // What every shelf owes.
        ensures put { OnOk result (self.new.files ≡ insert self.old.files name.now bytes.now) }
        ensures others { OnErr result (KeepsOthers name.now (Some self.old.files) (Some self.new.files)) }
        ensures room_kept { KeepsOtherRoom name.now (get self.old.rooms) (get self.new.rooms) }
        ensures count { shelf_faults self.old ≤ shelf_faults self.new }
        ensures failed { OnErr result (HasRisen (shelf_faults self.old) (shelf_faults self.new)) }
    {
        if self.calls.count_one() {
            return Err(Failed);
        }
        self.store.write(name.as_bytes(), bytes);
        Ok(())
    }
}
