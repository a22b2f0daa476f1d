//! Any legal entry is made: one that prints no prompt into room that is there, the others as memory allows.
ghost use Rattle.std.specs.Prelude.{◌≡◌, ◌<◌, ◌^◌};
ghost use Rattle.bus_core.specs.Inner.{is_quiet};

use crate::inner::Inner;
use mach_base::{Ending, Entry, OutOfMemory};

impl Inner {
    ghost use Rattle.std.specs.Prelude.{◌≡◌, ◌+◌, ◌≤◌, OnOk, true, false, vec_len, vec_capacity};
    ghost use Rattle.mach_base.specs.Packed.{IsPackable};
    ghost use Rattle.atom_mach.specs.declared.texts.TheConstants.{BANNER_BYTES};
    ghost use Rattle.plant_mach.specs.Entries.{may};
    ghost use Rattle.plant_mach.specs.Order.{IsOrderly};
    ghost use Rattle.bus_core.specs.Inner.{machine_of, is_quiet, IsDone};

    /// A legal entry has bytes in a packed list. The call does nothing; its contract says so to callers.
    pub fn keeps_packable(&self, entry: Entry)
        requires legal { may (machine_of self.now) entry ≡ true }
        ensures { IsPackable entry }
    {
        self.memory.keeps_words();
        self.kdb.breaks.keeps_limits();
        match entry {
            Entry::PlantStep(addr) => fits(addr),
            _ => {}
        }
    }

    /// Makes a legal entry that prints no prompt; what it prints goes into room that is there.
    pub fn make_quiet(&mut self, out: &mut Vec<u8>, entry: Entry)
        requires legal { may (machine_of self.old) entry ≡ true }
        requires quiet { is_quiet entry ≡ true }
        requires order { ∥ IsOrderly (machine_of self.old) ∥₁ }
        requires room { vec_len out.old + BANNER_BYTES ≤ vec_capacity out.old }
        ensures done { IsDone (machine_of self.old) entry out.old.items out.new.items (machine_of self.new) }
        ensures capacity { vec_capacity out.new ≡ vec_capacity out.old }
    {
        match entry {
            Entry::Step(hart) => self.make_step(out, hart),
            Entry::Intr(hart) => self.make_interrupt(hart),
            Entry::Send(hart) => self.make_send(hart),
            Entry::Take(hart) => self.make_take(hart),
            Entry::Open(master, late) => self.make_open(out, master, late),
            Entry::Pull(place) => self.make_pull(place),
            Entry::PlantStep(addr) => self.make_plant_step(addr),
            Entry::PullStep => self.make_pull_step(),
            Entry::Plant(place) => self.make_plant(place),
            Entry::Close(hart) => self.make_close(hart),
            Entry::Off(ending) => self.make_end(ending),
            Entry::Line(_) => unreachable!(),
        }
    }

    /// Makes a legal entry that prints a prompt. Once memory has run out nothing is claimed of the machine.
    pub fn make_spoken(&mut self, out: &mut Vec<u8>, entry: Entry) -> Result<(), OutOfMemory>
        requires legal { may (machine_of self.old) entry ≡ true }
        requires spoken { is_quiet entry ≡ false }
        ensures done { OnOk result (IsDone (machine_of self.old) entry out.old.items out.new.items (machine_of self.new)) }
        ensures harts { vec_len self.new.contexts ≡ vec_len self.old.contexts }
        ensures limit { self.new.limit ≡ self.old.limit }
    {
        match entry {
            Entry::Line(hart) => self.make_line(out, hart),
            Entry::Off(Ending::ScriptEnd) => self.make_script_end(out),
            _ => unreachable!(),
        }
    }
}

/// An address fits its type. The call does nothing; its contract says so to callers.
fn fits(addr: u64)
    ensures { addr < 2 ^ 64 }
{
    let _addr = addr;
}

/// Whether the entry prints no prompt: all but lines and the script's end.
pub fn is_quiet(entry: Entry) -> bool
    ensures { result ≡ is_quiet entry }
{
    !matches!(entry, Entry::Line(_) | Entry::Off(Ending::ScriptEnd))
}
