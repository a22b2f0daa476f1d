//! What is seen of the machine: its harts on true memory, its breakpoints, its script.
ghost use Rattle.std.specs.Prelude.{◌≡◌};
ghost use Rattle.plant_mach.specs.Entries.{is_ebreak};

use crate::inner::Inner;
use atom_mach::{fault_of_fetched, next_of_fetched, trap_of};
use bus_plant::raw_memory_is_seen_as_true_memory;
use hart_ctx::Context;
use hart_step::After;
use mach_base::{Fault, Hart, PLACES, Peek, Reason, has_bit, mask_with};
use rv_table::EBREAK;

impl Inner {
    ghost use Rattle.std.specs.Prelude.{◌≡◌, ◌<◌, ◌≤◌, ◌^◌, is_some, nat_lt, length, vec_len, if◌then◌else◌};
    ghost use Rattle.mach_base.specs.Masks.{mask_with};
    ghost use Rattle.mach_base.specs.declared.limits.TheConstants.{MOST_HARTS};
    ghost use Rattle.atom_mach.specs.State.{context_at};
    ghost use Rattle.atom_mach.specs.Traps.{fault_of, next_pc, trap};
    ghost use Rattle.atom_mach.specs.Session.{is_hart};
    ghost use Rattle.atom_mach.specs.Step.{all_halted};
    ghost use Rattle.plant_mach.specs.Machine.{enabled_at, enabled_of, is_held};
    ghost use Rattle.plant_mach.specs.Entries.{raw_fetched, is_ebreak, faults, step_address, has_line};
    ghost use Rattle.bus_core.specs.Inner.{machine_of};

    /// The number of harts.
    pub fn harts(&self) -> u8
        ensures number { result ≡ length self.now.contexts.items }
        ensures few { result ≤ MOST_HARTS }
    {
        self.contexts.len() as u8
    }

    /// Whether the hart is one of the machine's.
    pub fn has(&self, hart: Hart) -> bool
        ensures { result ≡ is_hart (machine_of self.now).machine hart.0 }
    {
        hart.0 < self.harts()
    }

    /// One more than the greatest mask of the machine's harts.
    #[tactic(auto, using(atom_mach::proofs::Masks::one_at))]
    pub fn mask_limit(&self) -> u64
        ensures { result ≡ 2 ^ length self.now.contexts.items }
    {
        1 << self.harts()
    }

    /// The context of a hart.
    pub fn context(&self, hart: Hart) -> &Context
        requires { hart.0 < vec_len self.now.contexts }
        ensures { result.now ≡ context_at (machine_of self.now).machine hart.0 }
    {
        &self.contexts[usize::from(hart.0)]
    }

    /// Whether the open session holds the hart: each but the late ones.
    pub fn is_held(&self, hart: Hart) -> bool
        requires { hart.0 < vec_len self.now.contexts }
        ensures { result ≡ is_held (machine_of self.now) hart.0 }
    {
        match self.session {
            None => false,
            Some(sitting) => !has_bit(sitting.late, hart.0),
        }
    }

    /// Whether the limit of steps isn't reached.
    pub fn has_steps(&self) -> bool
        ensures { result ≡ nat_lt self.now.steps self.now.limit }
    {
        self.steps < self.limit
    }

    /// Whether every hart is halted.
    pub fn all_halted(&self) -> bool
        ensures { result ≡ all_halted self.now.contexts.items }
    {
        self.contexts.iter().all(|context| context.halted)
    }

    /// The fault of the hart's instruction.
    #[tactic(auto, unfolding(atom_mach::specs::Traps::fault_of), using(crate::proofs::Raw::fault_on_raw))]
    pub fn fault(&self, hart: Hart) -> Option<Fault>
        requires { hart.0 < vec_len self.now.contexts }
        ensures { result ≡ fault_of (machine_of self.now).machine hart.0 }
    {
        raw_memory_is_seen_as_true_memory();
        self.memory.keeps_words();
        let context = self.context(hart);
        let fetched = self.memory.fetch(context.pc);
        fault_of_fetched(context, self.harts(), self.memory.raw(), fetched)
    }

    /// Whether the hart's instruction faults.
    pub fn faults(&self, hart: Hart) -> bool
        requires { hart.0 < vec_len self.now.contexts }
        ensures { result ≡ faults (machine_of self.now) hart.0 }
    {
        self.fault(hart).is_some()
    }

    /// The hart's trap.
    #[tactic(auto, unfolding(atom_mach::specs::Traps::trap), using(crate::proofs::Raw::trap_on_raw))]
    pub fn trap(&self, hart: Hart) -> Option<Reason>
        requires { hart.0 < vec_len self.now.contexts }
        ensures { result ≡ trap (machine_of self.now).machine hart.0 }
    {
        raw_memory_is_seen_as_true_memory();
        self.memory.keeps_words();
        let context = self.context(hart);
        let fetched = self.memory.fetch(context.pc);
        trap_of(
            self.opened,
            &self.kdb.breaks,
            hart,
            context,
            self.harts(),
            self.memory.raw(),
            fetched,
        )
    }

    /// The pc after the hart's instruction.
    #[tactic(auto, unfolding(atom_mach::specs::Traps::next_pc))]
    pub fn next(&self, hart: Hart) -> After
        requires { hart.0 < vec_len self.now.contexts }
        ensures { result ≡ next_pc (machine_of self.now).machine hart.0 }
    {
        let context = self.context(hart);
        next_of_fetched(context, self.harts(), self.memory.fetch(context.pc))
    }

    /// Where the step word belongs while the hart makes the step that it owes, if it needs one: at the pc after its
    /// instruction, where that is another word of text.
    pub fn step_address(&self, hart: Hart) -> Option<u64>
        requires { hart.0 < vec_len self.now.contexts }
        ensures { result ≡ step_address (machine_of self.now).machine hart.0 }
    {
        match self.next(hart) {
            After::At(addr) if self.memory.is_text(addr) && addr != self.context(hart).pc => {
                Some(addr)
            }
            _ => None,
        }
    }

    /// Whether the hart fetches an `ebreak` from raw memory: one of the image, or a planted word.
    pub fn meets_ebreak(&self, hart: Hart) -> bool
        requires { hart.0 < vec_len self.now.contexts }
        ensures { result ≡ is_ebreak (raw_fetched (machine_of self.now) hart.0) }
    {
        is_ebreak(self.memory.raw().fetch(self.context(hart).pc))
    }

    /// The address at which the place is enabled, if it is.
    pub fn enabled_at(&self, place: u8) -> Option<u64>
        ensures { result ≡ enabled_at (machine_of self.now) place }
    {
        match self.kdb.breaks.at(place) {
            Some(found) if found.enabled => Some(found.addr),
            _ => None,
        }
    }

    /// The mask of the enabled places.
    #[tactic(auto, using(crate::proofs::Planting::enabled_more))]
    pub fn enabled(&self) -> u64
        ensures { result ≡ enabled_of (machine_of self.now) }
    {
        let mut mask = 0;
        for place in 0..PLACES {
            mask = self.mask_with_enabled(mask, place);
        }
        mask
    }

    /// The mask with this place too, if it is enabled.
    fn mask_with_enabled(&self, mask: u64, place: u8) -> u64
        requires { place < 64 }
        ensures { result ≡ (if is_some (enabled_at (machine_of self.now) place) then mask_with mask place else mask) }
    {
        match self.enabled_at(place) {
            Some(_) => mask_with(mask, place),
            None => mask,
        }
    }

    /// Whether a line is unread.
    #[tactic(auto, using(crate::proofs::Lines::line_left))]
    pub fn has_line(&self) -> bool
        ensures { result ≡ has_line (machine_of self.now).machine.unread }
    {
        self.read < self.script.len()
    }
}

/// Whether `ebreak` was fetched.
fn is_ebreak(fetched: Result<u32, Fault>) -> bool
    ensures { result ≡ is_ebreak fetched }
{
    match fetched {
        Ok(word) => word == EBREAK,
        Err(_) => false,
    }
}
