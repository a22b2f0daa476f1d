ghost use Rattle.std.specs.Prelude.{◌≡◌, length, OnOk};
ghost use Rattle.std.specs.Option.{option_copied};
ghost use Rattle.std.specs.FinMap.{empty, get, insert};
ghost use Rattle.io_edge.specs.Edge.{HasRoom, KeepsRoom, KeepsOtherRoom};
ghost use Rattle.io_edge.specs.Memory.{file_map};

use crate::Named;
use crate::lookup::{bytes_of_name, written_under};
use crate::slot::{Slot, slot_of};
use mach_base::OutOfMemory;
use std::alloc::Global;
use std::marker::Model;

/// Byte strings by name in memory, with the room made for writes.
#[derive(Debug, Drop)]
pub struct Store {
    alloc: Global,
    /// What was there from the start. Of several of one name the first counts.
    given: Vec<Named>,
    /// What was written since; it hides what was there. Of several slots of one name the first counts.
    slots: Vec<Slot>,
}

impl Model for Store {
    ghost use Rattle.io_edge.specs.Memory.{StoreState, coded_store, store_files, store_rooms};

    ghost Value = { StoreState };

    ghost coded = { coded_store };

    ghost view = { λ s. record { files = store_files s.given.items s.slots.items; rooms = store_rooms s.slots.items } };
}

impl Store {
    ghost use Rattle.io_edge.specs.Memory.{file_map};

    /// These files, and no room. It takes no memory.
    pub fn new(alloc: Global, given: Vec<Named>) -> Store
        ensures files { result.files ≡ file_map given.items }
        ensures rooms { result.rooms ≡ empty }
    {
        Store {
            alloc,
            given,
            slots: Vec::new(alloc),
        }
    }

    /// The bytes of a name; None exactly where it isn't there.
    pub fn bytes(&self, name: &[u8]) -> Option<&[u8]>
        ensures { option_copied result ≡ get self.now.files name.now }
    {
        if let Some(bytes) = written_under(self.slots.as_slice(), name) {
            return Some(bytes);
        }
        bytes_of_name(self.given.as_slice(), name)
    }

    /// Makes room for a write of at most `size` bytes.
    pub fn reserve(&mut self, name: &[u8], size: usize) -> Result<(), OutOfMemory>
        ensures room_made { OnOk result (HasRoom (get self.new.rooms name.now) size) }
        ensures room_kept { KeepsRoom (get self.old.rooms) (get self.new.rooms) }
        ensures files { self.new.files ≡ self.old.files }
    {
        match slot_of(self.slots.as_slice(), name) {
            Some(slot) => self.slots[slot].reserve(size),
            None => {
                let slot = Slot::new(self.alloc, name, size)?;
                self.slots.push(slot)?;
                Ok(())
            }
        }
    }

    /// Writes bytes for which there is room.
    pub fn write(&mut self, name: &[u8], bytes: &[u8])
        requires { HasRoom (get self.old.rooms name.now) (length bytes.now) }
        ensures files { self.new.files ≡ insert self.old.files name.now bytes.now }
        ensures room_kept { KeepsOtherRoom name.now (get self.old.rooms) (get self.new.rooms) }
    {
        match slot_of(self.slots.as_slice(), name) {
            Some(slot) => self.slots[slot].write(self.alloc, bytes),
            None => unreachable!(),
        }
    }
}
