//! A journal's entries in few bytes each.

ghost use Rattle.std.specs.Prelude.{◌≡◌, ℕ, ◌+◌, ◌-◌, ◌<◌, ◌≤◌, List, [], ◌∷◌, ◌++◌, length, IfOk, OnOk, OnErr, vec_len, vec_capacity};
ghost use Rattle.mach_base.specs.Packed.{short_bytes, ending_bytes, entry_bytes, IsPackable, short_entry, last_entry, first_byte, first_number, first_entry, unpacked, ArePacked, PackedList};

use crate::{Ending, Entry, Hart, OutOfMemory, put_bytes};
use std::alloc::Global;
use std::marker::Model;

/// The bytes of the longest entry.
const LONGEST: usize = 10;

/// A list of entries in few bytes each. Contracts see its entries, and how many bytes more it has room for. An entry
/// takes 1 byte, but 2 for a place, 9 for a planted step and 10 for an opening; docs/formats.md has the table.
#[derive(Debug, Drop)]
pub struct Packed {
    bytes: Vec<u8>,
    count: u64,
    spare: usize,
}

impl Model for Packed {
    ghost use Rattle.std.specs.Prelude.{◌≡◌, ◌+◌, ◌≤◌, length, vec_len, vec_capacity};
    ghost use Rattle.mach_base.specs.Packed.{unpacked, ArePacked, PackedList};

    ghost Value = { PackedList };

    ghost view = { λ p. record { entries = unpacked p.bytes.items; spare = p.spare } };

    ghost invariant = { λ p. ArePacked p.bytes.items × (p.count ≡ length (unpacked p.bytes.items)) × (vec_len p.bytes + p.spare ≤ vec_capacity p.bytes) };
}

impl Packed {
    /// The empty list, with room for so many bytes.
    pub fn with_room(alloc: Global, bytes: usize) -> Result<Packed, OutOfMemory>
        ensures { IfOk result (λ p. (p.entries ≡ []) × (bytes ≤ p.spare)) }
    {
        let room = Vec::with_capacity(alloc, bytes)?;
        Ok(Packed {
            bytes: room,
            count: 0,
            spare: bytes,
        })
    }

    /// Appends an entry into room that is there. The hart of the entry is below 32, and it isn't a plan's end.
    pub fn push(&mut self, entry: Entry)
        requires packable { IsPackable entry }
        requires room { length (entry_bytes entry) ≤ self.old.spare }
        ensures entries { self.new.entries ≡ self.old.entries ++ entry ∷ [] }
        ensures spare { self.old.spare ≤ self.new.spare + length (entry_bytes entry) }
    {
        let before = self.bytes.len();
        put_entry(&mut self.bytes, entry);
        self.spare -= self.bytes.len() - before;
        self.count += 1;
    }

    /// Appends an entry, and makes room for it first. A refusal changes nothing, and in both cases the room that was there
    /// stays. The hart of the entry is below 32, and it isn't a plan's end.
    pub fn try_push(&mut self, entry: Entry) -> Result<(), OutOfMemory>
        requires packable { IsPackable entry }
        ensures ok { OnOk result (self.new.entries ≡ self.old.entries ++ entry ∷ []) }
        ensures err { OnErr result (self.new.entries ≡ self.old.entries) }
        ensures spare { self.old.spare ≤ self.new.spare }
    {
        self.bytes.reserve(self.spare + LONGEST)?;
        put_entry(&mut self.bytes, entry);
        self.count += 1;
        Ok(())
    }

    /// How many entries there are.
    pub fn len(&self) -> u64
        ensures { result ≡ length self.now.entries }
    {
        self.count
    }

    /// The entries in order.
    pub fn iter(&self) -> PackedIter<'_>
        ensures { result ≡ self.now.entries }
    {
        PackedIter {
            bytes: self.bytes.as_slice(),
        }
    }

    /// The same list.
    pub fn try_copy(&self, alloc: Global) -> Result<Packed, OutOfMemory>
        ensures { IfOk result (λ p. p.entries ≡ self.now.entries) }
    {
        let mut bytes = Vec::with_capacity(alloc, self.bytes.len())?;
        bytes.extend_from_slice(self.bytes.as_slice())?;
        Ok(Packed {
            bytes,
            count: self.count,
            spare: 0,
        })
    }
}

/// Appends the bytes of an entry into room that is there.
#[tactic(auto, unfolding(crate::specs::Packed::entry_bytes))]
fn put_entry(out: &mut Vec<u8>, entry: Entry)
    requires packable { IsPackable entry }
    requires room { vec_len out.old + length (entry_bytes entry) ≤ vec_capacity out.old }
    ensures text { out.new.items ≡ out.old.items ++ entry_bytes entry }
    ensures capacity { vec_capacity out.new ≡ vec_capacity out.old }
{
    match entry {
        Entry::Step(Hart(h)) => put_short(out, 0, h),
        Entry::Intr(Hart(h)) => put_short(out, 1, h),
        Entry::Send(Hart(h)) => put_short(out, 2, h),
        Entry::Take(Hart(h)) => put_short(out, 3, h),
        Entry::Line(Hart(h)) => put_short(out, 4, h),
        Entry::Close(Hart(h)) => put_short(out, 5, h),
        Entry::Open(Hart(h), late) => {
            put_bytes(out, &[0xc0, h]);
            put_bytes(out, &late.to_le_bytes());
        }
        Entry::Pull(place) => put_bytes(out, &[0xc1, place]),
        Entry::Plant(place) => put_bytes(out, &[0xc2, place]),
        Entry::PlantStep(addr) => {
            put_bytes(out, &[0xc3]);
            put_bytes(out, &addr.to_le_bytes());
        }
        Entry::PullStep => put_bytes(out, &[0xc4]),
        Entry::Off(ending) => put_ending(out, ending),
    }
}

/// Appends the byte of an entry that names a hart alone, by its kind.
fn put_short(out: &mut Vec<u8>, kind: u8, hart: u8)
    requires kind { kind < 6 }
    requires hart { hart < 32 }
    requires room { vec_len out.old + 1 ≤ vec_capacity out.old }
    ensures text { out.new.items ≡ out.old.items ++ short_bytes kind hart }
    ensures capacity { vec_capacity out.new ≡ vec_capacity out.old }
{
    out.push_reserved(kind * 32 + hart);
}

/// Appends the byte of an ending.
fn put_ending(out: &mut Vec<u8>, ending: Ending)
    requires room { vec_len out.old + length (ending_bytes ending) ≤ vec_capacity out.old }
    ensures text { out.new.items ≡ out.old.items ++ ending_bytes ending }
    ensures capacity { vec_capacity out.new ≡ vec_capacity out.old }
{
    match ending {
        Ending::ScriptEnd => put_bytes(out, &[0xc5]),
        Ending::AllHalted => put_bytes(out, &[0xc6]),
        Ending::StepLimit => put_bytes(out, &[0xc7]),
        Ending::PlanEnd => {}
    }
}

/// The entries of a packed list in order. Contracts see those that are left.
#[derive(Debug, Drop)]
pub struct PackedIter<'a> {
    bytes: &'a [u8],
}

impl<'a> Model for PackedIter<'a> {
    ghost use Rattle.std.specs.Prelude.{List};
    ghost use Rattle.mach_base.specs.declared.event.Entry.{Entry as AnEntry};
    ghost use Rattle.mach_base.specs.Packed.{unpacked};

    ghost Value = { List AnEntry };

    ghost view = { λ s. unpacked s.bytes.now };
}

impl<'a> Iterator for PackedIter<'a> {
    type Item = Entry;

    ghost use Rattle.std.specs.Iterator.{YieldsFirst, item_count};

    ghost next_gives = { YieldsFirst (λ s. s) };

    ghost remaining = { item_count (λ s. s) };

    fn next(&mut self) -> Option<Entry> {
        let (first, rest) = self.bytes.split_first()?;
        let (entry, rest) = first_entry(*first, rest);
        self.bytes = rest;
        Some(entry)
    }
}

/// The entry of a first byte and of the bytes after it, and what follows the entry.
#[tactic(auto, unfolding(crate::specs::Packed::first_entry))]
fn first_entry(first: u8, bytes: &[u8]) -> (Entry, &[u8])
    ensures entry { result.0 ≡ (first_entry first bytes.now).0 }
    ensures rest { result.1.now ≡ (first_entry first bytes.now).1 }
{
    match first {
        0..0xc0 => (short_entry(first / 32, first % 32), bytes),
        0xc0 => {
            let (hart, bytes) = first_byte(bytes);
            let (late, bytes) = first_number(bytes);
            (Entry::Open(Hart(hart), late), bytes)
        }
        0xc1 => {
            let (place, bytes) = first_byte(bytes);
            (Entry::Pull(place), bytes)
        }
        0xc2 => {
            let (place, bytes) = first_byte(bytes);
            (Entry::Plant(place), bytes)
        }
        0xc3 => {
            let (addr, bytes) = first_number(bytes);
            (Entry::PlantStep(addr), bytes)
        }
        _ => (last_entry(first), bytes),
    }
}

/// The entry that names a hart alone, by its kind.
fn short_entry(kind: u8, hart: u8) -> Entry
    ensures { result ≡ short_entry kind hart }
{
    match kind {
        0 => Entry::Step(Hart(hart)),
        1 => Entry::Intr(Hart(hart)),
        2 => Entry::Send(Hart(hart)),
        3 => Entry::Take(Hart(hart)),
        4 => Entry::Line(Hart(hart)),
        _ => Entry::Close(Hart(hart)),
    }
}

/// The entry of one byte from 0xc4 on.
fn last_entry(first: u8) -> Entry
    ensures { result ≡ last_entry first }
{
    match first {
        0xc4 => Entry::PullStep,
        0xc5 => Entry::Off(Ending::ScriptEnd),
        0xc6 => Entry::Off(Ending::AllHalted),
        _ => Entry::Off(Ending::StepLimit),
    }
}

/// The first byte, 0 where there is none, and the bytes after it.
fn first_byte(bytes: &[u8]) -> (u8, &[u8])
    ensures byte { result.0 ≡ (first_byte bytes.now).0 }
    ensures rest { result.1.now ≡ (first_byte bytes.now).1 }
{
    match bytes {
        [] => (0, bytes),
        [first, rest @ ..] => (*first, rest),
    }
}

/// The number in the first 8 bytes, 0 where there are fewer, and the bytes after it.
fn first_number(bytes: &[u8]) -> (u64, &[u8])
    ensures number { result.0 ≡ (first_number bytes.now).0 }
    ensures rest { result.1.now ≡ (first_number bytes.now).1 }
{
    match bytes.split_first_chunk::<8>() {
        Some((number, rest)) => (u64::from_le_bytes(*number), rest),
        None => (0, &[]),
    }
}

#[cfg(test)]
mod tests {
    use super::*;
    use std::test::Fail;

    const ENTRIES: [Entry; 14] = [
        Entry::Open(Hart(0), 0),
        Entry::Line(Hart(0)),
        Entry::Plant(15),
        Entry::Close(Hart(0)),
        Entry::Step(Hart(15)),
        Entry::Intr(Hart(31)),
        Entry::Send(Hart(3)),
        Entry::Take(Hart(3)),
        Entry::Open(Hart(2), 0xfedc),
        Entry::Pull(15),
        Entry::PlantStep(0x7fff_ffff_ffff_fffc),
        Entry::PullStep,
        Entry::Off(Ending::ScriptEnd),
        Entry::Off(Ending::StepLimit),
    ];

    #[test]
    #[tactic(auto, unfolding(crate::specs::Packed::entry_bytes))]
    fn keeps_entries_in_order(rt: HostRuntime) -> Result<(), Fail> {
        let mut list = Packed::with_room(rt.alloc(), 10)?;
        list.push(Entry::Off(Ending::AllHalted));
        for entry in ENTRIES {
            list.try_push(entry)?;
        }
        let copy = list.try_copy(rt.alloc())?;
        assert_eq!(rt; copy.len(), 15);
        let mut entries = copy.iter();
        assert_eq!(rt; entries.next(), Some(Entry::Off(Ending::AllHalted)));
        for entry in ENTRIES {
            assert_eq!(rt; entries.next(), Some(entry));
        }
        assert_eq!(rt; entries.next(), None);
        Ok(())
    }
}
