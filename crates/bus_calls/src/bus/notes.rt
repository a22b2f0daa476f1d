//! What the bus tells of itself as plain data.
use crate::bus::CoreBus;
use deck_core::Notes;
use hart_step::After;
use mach_base::{Hart, mask_with};

impl CoreBus {
    ghost use Rattle.std.specs.Prelude.{◌≡◌, ◌<◌, false, is_some, if◌then◌else◌};
    ghost use Rattle.mach_base.specs.Masks.{mask_with};
    ghost use Rattle.deck_core.specs.contract.Told.{told_of as told_by};
    ghost use Rattle.atom_mach.specs.State.{hart_count};
    ghost use Rattle.atom_mach.specs.Traps.{trap};
    ghost use Rattle.plant_mach.specs.Entries.{faults};
    ghost use Rattle.plant_told.specs.Told.{told_of, mask_of, traps_of, faults_of, next_in, plantable_in};
    ghost use Rattle.bus_core.specs.Core.{machine_of};
    ghost use Rattle.bus_calls.specs.Bus.{counted_of, told_lost};

    /// The mask with this hart too, if it has a trap.
    fn mask_with_trap(&self, mask: u64, hart: u8) -> u64
        requires { hart < hart_count (machine_of self.now.core).machine }
        ensures { result ≡ (if is_some (trap (machine_of self.now.core).machine hart) then mask_with mask hart else mask) }
    {
        match self.core.trap(Hart(hart)) {
            Some(_) => mask_with(mask, hart),
            None => mask,
        }
    }

    /// The mask of the harts that have a trap.
    #[tactic(auto, unfolding(plant_told::specs::Told::traps_of))]
    fn traps(&self) -> u64
        ensures { result ≡ traps_of (machine_of self.now.core).machine }
    {
        let mut mask = 0;
        for hart in 0..self.core.harts() {
            mask = self.mask_with_trap(mask, hart);
        }
        mask
    }

    /// The mask with this hart too, if its instruction faults.
    fn mask_with_fault(&self, mask: u64, hart: u8) -> u64
        requires { hart < hart_count (machine_of self.now.core).machine }
        ensures { result ≡ (if faults (machine_of self.now.core) hart then mask_with mask hart else mask) }
    {
        if self.core.faults(Hart(hart)) {
            mask_with(mask, hart)
        } else {
            mask
        }
    }

    /// The mask of the harts whose instruction faults.
    #[tactic(auto, unfolding(plant_told::specs::Told::faults_of))]
    fn faults(&self) -> u64
        ensures { result ≡ faults_of (machine_of self.now.core) }
    {
        let mut mask = 0;
        for hart in 0..self.core.harts() {
            mask = self.mask_with_fault(mask, hart);
        }
        mask
    }

    /// The next address of the session's master, if there is one.
    fn next(&self) -> Option<u64>
        ensures { result ≡ next_in (machine_of self.now.core).session (machine_of self.now.core).machine }
    {
        self.core.keeps_bounds();
        let sitting = self.core.session()?;
        match self.core.next(sitting.master) {
            After::At(addr) => Some(addr),
            After::Nowhere => None,
        }
    }

    /// Whether that is a word of text other than the master's.
    fn plantable(&self) -> bool
        ensures { result ≡ plantable_in (machine_of self.now.core).session (machine_of self.now.core).machine }
    {
        self.core.keeps_bounds();
        match self.core.session() {
            Some(sitting) => self.core.step_address(sitting.master).is_some(),
            None => false,
        }
    }

    /// What is told of a machine that goes on or has ended.
    #[tactic(auto, unfolding(plant_told::specs::Told::told_of))]
    pub fn notes_here(&self) -> Notes
        ensures { told_of (counted_of self.now) ≡ told_by (hart_count (machine_of self.now.core).machine) (mask_of self.now.released (machine_of self.now.core)) result }
    {
        Notes {
            planted: self.core.planted(),
            enabled: self.core.enabled(),
            step: self.core.step_word(),
            session: self.core.session(),
            lines: self.core.lines(),
            sends: self.sends,
            stepped: self.stepped,
            over: self.core.over().is_some(),
            traps: self.traps(),
            faults: self.faults(),
            next: self.next(),
            plantable: self.plantable(),
        }
    }

    /// What is told of a lost core.
    pub fn notes_lost(&self) -> Notes
        ensures { told_lost self.now ≡ told_by (hart_count (machine_of self.now.core).machine) self.now.stood.mask result }
    {
        Notes {
            planted: 0,
            enabled: 0,
            step: None,
            session: None,
            lines: self.stood.lines,
            sends: self.sends,
            stepped: false,
            over: true,
            traps: 0,
            faults: 0,
            next: None,
            plantable: false,
        }
    }
}
