//! The core from the outside: its start, the entries that it takes, and what it tells.
ghost use Rattle.bus_core.specs.Inner.{machine_of as inner_machine};
ghost use Rattle.bus_core.specs.Origin.{HasOrigin};

mod reserved;
mod seen;

use crate::inner::Inner;
use crate::inner::making::is_quiet;
use atom_mach::{BANNER_BYTES, Script};
use bus_plant::Planted;
use img_text::{Image, boot};
use kdb_cmd::Kdb;
use mach_base::{Ending, Entry, OutOfMemory, Packed};
use plant_mach::{
    entries_keep, entries_keep_order, legal_lists_are_runs, lists_join, starts_are_orderly,
};
use std::alloc::Global;
use sym_map::Symbols;

/// Why an entry was not made.
#[derive(Clone, Copy, Debug, PartialEq, Eq)]
pub enum ApplyFault {
    /// The entry isn't legal now.
    NotLegal,
    OutOfMemory,
}

/// Room for so many bytes of the journal and of the transcript.
#[derive(Clone, Copy, Debug, PartialEq, Eq)]
pub struct Room {
    pub journal: usize,
    pub text: usize,
}

/// The planted machine with its journal and its transcript. Entries alone change it.
#[derive(Drop)]
pub struct Core {
    inner: Inner,
    journal: Packed,
    transcript: Vec<u8>,
    lost: bool,
    ghost made: { ∥ HasOrigin journal.entries transcript.items (inner_machine inner) lost ∥₁ },
}

impl Core {
    ghost use Rattle.std.specs.Prelude.{◌≡◌, ◌≤◌, ◌↔◌, [], true, false, Err, None, IfOk, OnOk, OnErr};
    ghost use Rattle.mach_base.specs.declared.limits.TheConstants.{MOST_HARTS, MOST_STEPS};
    ghost use Rattle.plant_mach.specs.Machine.{planted_start};
    ghost use Rattle.plant_mach.specs.Entries.{makes};
    ghost use Rattle.plant_mach.specs.Order.{IsOrderly};
    ghost use Rattle.bus_core.specs.declared.outer.ApplyFault.TheVariants.{NotLegal, OutOfMemory as NoMemory};
    ghost use Rattle.bus_core.specs.Inner.{is_quiet, is_legal};
    ghost use Rattle.bus_core.specs.Origin.{Origin, HasOrigin};
    ghost use Rattle.bus_core.specs.Core.{machine_of, entries_of, text_of, ComesFrom, IsSame, Applied, SameOrigin, IsRunOf};

    /// The machine at the start, with this many harts, 1 to 16: memory and contexts from the image, the whole script
    /// unread, at most `limit` steps to make, 1 to 4,000,000; nothing is planted, no session open, no entry made.
    pub fn start(
        alloc: Global,
        image: &Image,
        names: Symbols,
        script: Script,
        harts: u8,
        limit: u64,
    ) -> Result<Core, OutOfMemory>
        requires some_harts { 1 ≤ harts }
        requires few_harts { harts ≤ MOST_HARTS }
        requires low { 1 ≤ limit }
        requires high { limit ≤ MOST_STEPS }
        ensures machine { IfOk result (λ core. machine_of core ≡ planted_start image.now names script harts limit) }
        ensures journal { IfOk result (λ core. entries_of core ≡ []) }
        ensures transcript { IfOk result (λ core. text_of core ≡ []) }
        ensures lost { IfOk result (λ core. core.lost ≡ false) }
        ensures origin { IfOk result (λ core. ComesFrom (record { image = image.now; symbols = names; lines = script; harts = harts; limit = limit }) core) }
    {
        let room = Room {
            journal: 0,
            text: 0,
        };
        Core::start_with_room(alloc, image, names, script, harts, limit, room)
    }

    /// Makes the entry. Unless the core is lost, `NotLegal` comes exactly where the entry isn't legal, and then nothing is
    /// changed. `OutOfMemory` changes nothing, unless a line or the script's end met it: then the core is lost for good, and
    /// answers only this.
    pub fn apply(&mut self, entry: Entry) -> Result<(), ApplyFault>
        ensures made { OnOk result (Applied self.old entry self.new) }
        ensures not_legal { self.old.lost ≡ false → (result ≡ Err NotLegal) ↔ (makes (machine_of self.old) entry ≡ None) }
        ensures kept { result ≡ Err NotLegal → self.new ≡ self.old }
        ensures unchanged { result ≡ Err NoMemory → self.new.lost ≡ self.old.lost → IsSame self.old self.new }
        ensures lost { self.old.lost ≡ true → self.new.lost ≡ true }
        ensures out_of_memory { self.old.lost ≡ true → result ≡ Err NoMemory }
        ensures quiet { is_quiet entry ≡ true → self.new.lost ≡ self.old.lost }
        ensures origin { SameOrigin self.old self.new }
    {
        if self.lost {
            return Err(ApplyFault::OutOfMemory);
        }
        if !self.inner.legal(entry) {
            return Err(ApplyFault::NotLegal);
        }
        match self.apply_legal(entry) {
            Ok(()) => Ok(()),
            Err(OutOfMemory) => Err(ApplyFault::OutOfMemory),
        }
    }

    /// Makes a legal entry.
    fn apply_legal(&mut self, entry: Entry) -> Result<(), OutOfMemory>
        requires here { self.old.lost ≡ false }
        requires legal { is_legal (machine_of self.old) entry ≡ true }
        ensures made { OnOk result (Applied self.old entry self.new) }
        ensures unchanged { OnErr result (self.new.lost ≡ false → IsSame self.old self.new) }
        ensures quiet { is_quiet entry ≡ true → self.new.lost ≡ false }
        ensures origin { SameOrigin self.old self.new }
    {
        if is_quiet(entry) {
            self.apply_quiet(entry)
        } else {
            self.apply_spoken(entry)
        }
    }

    /// The machine is in order, unless the core is lost. The call does nothing; its contract says so to callers.
    pub fn keeps_order(&self)
        requires { self.now.lost ≡ false }
        ensures { ∥ IsOrderly (machine_of self.now) ∥₁ }
    {
        starts_are_orderly();
        entries_keep_order();
        let _inner = &self.inner;
    }

    /// Makes a legal entry that prints no prompt.
    fn apply_quiet(&mut self, entry: Entry) -> Result<(), OutOfMemory>
        requires here { self.old.lost ≡ false }
        requires legal { is_legal (machine_of self.old) entry ≡ true }
        requires quiet { is_quiet entry ≡ true }
        ensures made { OnOk result (Applied self.old entry self.new) }
        ensures unchanged { OnErr result (IsSame self.old self.new) }
        ensures lost { self.new.lost ≡ false }
        ensures origin { SameOrigin self.old self.new }
    {
        lists_join();
        entries_keep();
        self.keeps_order();
        self.inner.keeps_packable(entry);
        self.transcript.reserve(BANNER_BYTES)?;
        self.journal.try_push(entry)?;
        self.inner.make_quiet(&mut self.transcript, entry);
        Ok(())
    }

    /// Makes a legal entry that prints a prompt. Once memory has run out the core is lost.
    fn apply_spoken(&mut self, entry: Entry) -> Result<(), OutOfMemory>
        requires here { self.old.lost ≡ false }
        requires legal { is_legal (machine_of self.old) entry ≡ true }
        requires spoken { is_quiet entry ≡ false }
        ensures made { OnOk result (Applied self.old entry self.new) }
        ensures lost { OnErr result (self.new.lost ≡ true) }
        ensures origin { SameOrigin self.old self.new }
    {
        lists_join();
        entries_keep();
        self.inner.keeps_packable(entry);
        self.lost = true;
        self.inner.make_spoken(&mut self.transcript, entry)?;
        self.journal.try_push(entry)?;
        self.lost = false;
        Ok(())
    }

    /// There is an origin of the core, and from each one of the core the journal reads as a run of the atomic machine with
    /// the core's transcript. The call does nothing; its contract says so to callers.
    pub fn reads_as_a_run(&self)
        ensures origin { ∥ HasOrigin (entries_of self.now) (text_of self.now) (machine_of self.now) self.now.lost ∥₁ }
        ensures run { (o : Origin) → ComesFrom o self.now → IsRunOf o self.now }
    {
        legal_lists_are_runs();
        let _inner = &self.inner;
    }

    /// The entries that were made, in order.
    pub fn journal(&self) -> &Packed
        ensures { result.now.entries ≡ entries_of self.now }
    {
        &self.journal
    }

    /// What the entries printed; the line of the ending isn't in it.
    pub fn transcript(&self) -> &[u8]
        ensures { result.now ≡ text_of self.now }
    {
        self.transcript.as_slice()
    }

    /// How the run has ended, if it has.
    pub fn over(&self) -> Option<Ending>
        ensures { result ≡ (machine_of self.now).ending }
    {
        self.inner.ending
    }

    /// Whether a line, or the script's end, ran out of memory. It stays true.
    pub fn lost(&self) -> bool
        ensures { result ≡ self.now.lost }
    {
        self.lost
    }

    /// The number of steps so far: executed instructions and interrupts taken.
    pub fn steps(&self) -> u64
        ensures { result ≡ (machine_of self.now).machine.steps }
    {
        self.inner.steps
    }
}
