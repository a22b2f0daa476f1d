ghost use Rattle.std.specs.Prelude.{◌≡◌, ◌≤◌, length, None, Some, IfOk, OnOk, position, vec_capacity};
ghost use Rattle.std.specs.Str.{bytes_eq};

use crate::mem_sink::append;
use mach_base::{OutOfMemory, Text};
use std::alloc::Global;
use std::mem;

/// What was written under a name, and the room made for the next write there.
#[derive(Debug, Drop)]
pub struct Slot {
    pub name: Text,
    /// The bytes written last, if there was a write.
    pub bytes: Option<Text>,
    /// Its capacity is the room; what it holds is of no account.
    pub spare: Vec<u8>,
}

impl Slot {
    /// A slot of this name with room for `size` bytes, in which nothing was written.
    pub fn new(alloc: Global, name: &[u8], size: usize) -> Result<Slot, OutOfMemory>
        ensures name { IfOk result (λ slot. slot.name ≡ name.now) }
        ensures bytes { IfOk result (λ slot. slot.bytes ≡ None) }
        ensures room { IfOk result (λ slot. size ≤ vec_capacity slot.spare) }
    {
        let mut spare = Vec::new(alloc);
        spare.reserve(size)?;
        let name = Text::from_vec(name.to_vec(alloc)?);
        Ok(Slot {
            name,
            bytes: None,
            spare,
        })
    }

    /// Makes room for `size` bytes, where there is less.
    pub fn reserve(&mut self, size: usize) -> Result<(), OutOfMemory>
        ensures name { self.new.name ≡ self.old.name }
        ensures bytes { self.new.bytes ≡ self.old.bytes }
        ensures kept { vec_capacity self.old.spare ≤ vec_capacity self.new.spare }
        ensures room { OnOk result (size ≤ vec_capacity self.new.spare) }
    {
        self.spare.reserve(size)?;
        Ok(())
    }

    /// Writes bytes for which there is room.
    pub fn write(&mut self, alloc: Global, bytes: &[u8])
        requires { length bytes.now ≤ vec_capacity self.old.spare }
        ensures name { self.new.name ≡ self.old.name }
        ensures bytes { self.new.bytes ≡ Some bytes.now }
    {
        let mut room = mem::replace(&mut self.spare, Vec::new(alloc));
        room.clear();
        append(&mut room, bytes);
        self.bytes = Some(Text::from_vec(room));
    }
}

/// The index of the first slot of a name.
pub fn slot_of(slots: &[Slot], name: &[u8]) -> Option<usize>
    ensures { result ≡ position (λ s. bytes_eq s.name name.now) slots.now }
{
    slots.iter().position(|slot| slot.name.as_bytes() == name)
}
