//! Entries of the bus: one that prints no prompt goes into room that is there, a line as memory allows.
ghost use Rattle.std.specs.Prelude.{◌≡◌, ◌<◌, ◌^◌};
ghost use Rattle.plant_room.specs.Room.{sends_after, stepped_after};

use crate::bus::{CoreBus, Stood};
use mach_base::{Entry, OutOfMemory};
use plant_mach::entries_keep;
use plant_room::entries_leave_room;
use plant_told::entries_leave_awake;

impl CoreBus {
    ghost use Rattle.std.specs.Prelude.{◌≡◌, true, false, OnOk, OnErr};
    ghost use Rattle.plant_mach.specs.Entries.{may};
    ghost use Rattle.plant_room.specs.Laws.{IsWithinCounts};
    ghost use Rattle.bus_core.specs.Core.{machine_of};
    ghost use Rattle.bus_core.specs.Inner.{is_quiet};
    ghost use Rattle.bus_calls.specs.Bus.{counted_of, is_over};
    ghost use Rattle.bus_calls.specs.Calls.{IsMadeBy, IsLost, SameOrigin};

    /// Makes a legal entry that prints no prompt, and counts it.
    pub fn make(&mut self, entry: Entry)
        requires going { is_over self.old ≡ false }
        requires legal { may (machine_of self.old.core) entry ≡ true }
        requires quiet { is_quiet entry ≡ true }
        requires counts { IsWithinCounts entry (counted_of self.old) }
        ensures made { IsMadeBy entry self.old self.new }
        ensures origin { SameOrigin self.old self.new }
    {
        entries_leave_room();
        entries_leave_awake();
        entries_keep();
        self.core.keeps_order();
        self.core.keeps_bounds();
        self.core.make(entry);
        self.sends = sends_after(entry, self.sends);
        self.stepped = stepped_after(entry, self.stepped);
    }

    /// Makes a legal entry that prints a prompt, and counts it. Once memory has run out the core is lost, and the mask and
    /// the number of lines are kept.
    pub fn speak(&mut self, entry: Entry) -> Result<(), OutOfMemory>
        requires going { is_over self.old ≡ false }
        requires legal { may (machine_of self.old.core) entry ≡ true }
        requires spoken { is_quiet entry ≡ false }
        ensures made { OnOk result (IsMadeBy entry self.old self.new) }
        ensures lost { OnErr result (IsLost self.old self.new) }
        ensures origin { SameOrigin self.old self.new }
    {
        entries_leave_room();
        entries_leave_awake();
        entries_keep();
        self.core.keeps_order();
        self.core.keeps_bounds();
        let room = self.core.text_after_line();
        self.stood = Stood {
            mask: self.core.held(),
            lines: self.core.lines(),
        };
        self.core.speak(entry, room)?;
        self.stepped = stepped_after(entry, self.stepped);
        Ok(())
    }
}

/// The number of calls sent after an entry.
fn sends_after(entry: Entry, sends: u64) -> u64
    requires { sends < 2 ^ 32 }
    ensures { result ≡ sends_after entry sends }
{
    match entry {
        Entry::Send(_) => sends + 1,
        _ => sends,
    }
}

/// Whether a step word was planted since the last line, after an entry.
fn stepped_after(entry: Entry, stepped: bool) -> bool
    ensures { result ≡ stepped_after entry stepped }
{
    match entry {
        Entry::Line(_) => false,
        Entry::PlantStep(_) => true,
        _ => stepped,
    }
}
