//! Entries into room that was reserved: those that print no prompt can't lack memory then.

use crate::inner::Inner;
use crate::outer::{Core, Room};
use atom_mach::Script;
use img_text::Image;
use mach_base::{Entry, OutOfMemory, Packed};
use plant_mach::{entries_keep, lists_join};
use std::alloc::Global;
use sym_map::Symbols;

impl Core {
    ghost use Rattle.std.specs.Prelude.{◌≡◌, ◌+◌, ◌≤◌, [], true, false, length, IfOk, OnOk, OnErr};
    ghost use Rattle.mach_base.specs.declared.limits.TheConstants.{MOST_HARTS, MOST_STEPS};
    ghost use Rattle.mach_base.specs.Packed.{entry_bytes};
    ghost use Rattle.atom_mach.specs.declared.texts.TheConstants.{BANNER_BYTES};
    ghost use Rattle.plant_mach.specs.Machine.{planted_start};
    ghost use Rattle.plant_mach.specs.Entries.{effect};
    ghost use Rattle.bus_core.specs.Inner.{is_quiet, is_legal};
    ghost use Rattle.bus_core.specs.Core.{machine_of, entries_of, text_of, journal_room, text_room, ComesFrom, Applied, SameOrigin};

    /// The machine at the start, as `start` makes it, with this room.
    pub fn start_with_room(
        alloc: Global,
        image: &Image,
        names: Symbols,
        script: Script,
        harts: u8,
        limit: u64,
        room: Room,
    ) -> Result<Core, OutOfMemory>
        requires some_harts { 1 ≤ harts }
        requires few_harts { harts ≤ MOST_HARTS }
        requires low { 1 ≤ limit }
        requires high { limit ≤ MOST_STEPS }
        ensures machine { IfOk result (λ core. machine_of core ≡ planted_start image.now names script harts limit) }
        ensures journal { IfOk result (λ core. entries_of core ≡ []) }
        ensures transcript { IfOk result (λ core. text_of core ≡ []) }
        ensures lost { IfOk result (λ core. core.lost ≡ false) }
        ensures journal_room { IfOk result (λ core. room.journal ≤ journal_room core) }
        ensures text_room { IfOk result (λ core. room.text ≤ text_room core) }
        ensures origin { IfOk result (λ core. ComesFrom (record { image = image.now; symbols = names; lines = script; harts = harts; limit = limit }) core) }
    {
        let _segments = image.segments();
        let inner = Inner::start(alloc, image, names, script, harts, limit)?;
        let journal = Packed::with_room(alloc, room.journal)?;
        let transcript = Vec::with_capacity(alloc, room.text)?;
        Ok(Core {
            inner,
            journal,
            transcript,
            lost: false,
        })
    }

    /// Makes a legal entry that prints no prompt, into room that is there.
    pub fn make(&mut self, entry: Entry)
        requires here { self.old.lost ≡ false }
        requires legal { is_legal (machine_of self.old) entry ≡ true }
        requires quiet { is_quiet entry ≡ true }
        requires journal { length (entry_bytes entry) ≤ journal_room self.old }
        requires text { BANNER_BYTES ≤ text_room self.old }
        ensures made { Applied self.old entry self.new }
        ensures journal_room { journal_room self.old ≤ journal_room self.new + length (entry_bytes entry) }
        ensures text_room { text_room self.old ≤ text_room self.new + length (effect (machine_of self.old) entry).text }
        ensures origin { SameOrigin self.old self.new }
    {
        lists_join();
        entries_keep();
        self.keeps_order();
        self.inner.keeps_packable(entry);
        self.journal.push(entry);
        self.inner.make_quiet(&mut self.transcript, entry);
    }

    /// Makes a legal entry that prints a prompt: the entry goes into room that is there, and what it prints as memory
    /// allows; then there are so many bytes more of room for text. Once memory has run out the core is lost.
    pub fn speak(&mut self, entry: Entry, room: usize) -> Result<(), OutOfMemory>
        requires here { self.old.lost ≡ false }
        requires legal { is_legal (machine_of self.old) entry ≡ true }
        requires spoken { is_quiet entry ≡ false }
        requires journal { length (entry_bytes entry) ≤ journal_room self.old }
        ensures made { OnOk result (Applied self.old entry self.new) }
        ensures lost { OnErr result (self.new.lost ≡ true) }
        ensures entries { OnErr result (entries_of self.new ≡ entries_of self.old) }
        ensures journal_room { OnOk result (journal_room self.old ≤ journal_room self.new + length (entry_bytes entry)) }
        ensures text_room { OnOk result (room ≤ text_room self.new) }
        ensures origin { SameOrigin self.old self.new }
    {
        lists_join();
        entries_keep();
        self.inner.keeps_packable(entry);
        self.lost = true;
        self.inner.make_spoken(&mut self.transcript, entry)?;
        self.transcript.reserve(room)?;
        self.journal.push(entry);
        self.lost = false;
        Ok(())
    }
}
