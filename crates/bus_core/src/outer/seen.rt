//! What a bus sees of the core's machine.

use crate::outer::Core;
use deck_core::Sitting;
use hart_ctx::Context;
use hart_step::After;
use mach_base::{Entry, Hart, Reason, all_but};

impl Core {
    ghost use Rattle.std.specs.Prelude.{◌≡◌, ◌+◌, ◌-◌, ◌*◌, ◌<◌, ◌≤◌, nat_lt, true, length};
    ghost use Rattle.mach_base.specs.declared.limits.TheConstants.{MOST_HARTS, MOST_LINES, MOST_STEPS};
    ghost use Rattle.deck_core.specs.contract.Allowed.{in_session, is_pass};
    ghost use Rattle.atom_mach.specs.State.{hart_count, context_at};
    ghost use Rattle.atom_mach.specs.Traps.{next_pc, trap};
    ghost use Rattle.plant_mach.specs.Machine.{planted_of, enabled_of, held_of};
    ghost use Rattle.plant_mach.specs.Entries.{raw_fetched, is_ebreak, faults, step_address, has_line};
    ghost use Rattle.plant_mach.specs.Order.{IsSeated};
    ghost use Rattle.bus_core.specs.Inner.{is_legal};
    ghost use Rattle.bus_core.specs.Core.{machine_of, most_steps};

    /// Whether the entry is legal.
    pub fn is_legal(&self, entry: Entry) -> bool
        ensures { result ≡ is_legal (machine_of self.now) entry }
    {
        self.inner.legal(entry)
    }

    /// The number of harts.
    pub fn harts(&self) -> u8
        ensures { result ≡ hart_count (machine_of self.now).machine }
    {
        self.inner.harts()
    }

    /// The machine is within its bounds: 1 to 16 harts, a session of theirs, at most 4,096 lines and 4,000,000 steps; a
    /// hart that owes a step may make it. The call does nothing; its contract says so to callers.
    pub fn keeps_bounds(&self)
        ensures some_harts { 1 ≤ hart_count (machine_of self.now).machine }
        ensures few_harts { hart_count (machine_of self.now).machine ≤ MOST_HARTS }
        ensures lines { (machine_of self.now).machine.lines_read + length (machine_of self.now).machine.unread ≤ MOST_LINES }
        ensures limit { (machine_of self.now).machine.limit ≤ MOST_STEPS }
        ensures steps { (machine_of self.now).machine.steps ≤ most_steps (machine_of self.now) }
        ensures pass { in_session (λ s. is_pass s.stage) (machine_of self.now).session ≡ true → (machine_of self.now).machine.steps < most_steps (machine_of self.now) }
        ensures seated { IsSeated (hart_count (machine_of self.now).machine) (machine_of self.now).session }
    {
        let _inner = &self.inner;
    }

    /// The context of a hart.
    pub fn context(&self, hart: Hart) -> &Context
        requires { hart.0 < hart_count (machine_of self.now).machine }
        ensures { result.now ≡ context_at (machine_of self.now).machine hart.0 }
    {
        self.inner.context(hart)
    }

    /// The hart's trap, on true memory.
    pub fn trap(&self, hart: Hart) -> Option<Reason>
        requires { hart.0 < hart_count (machine_of self.now).machine }
        ensures { result ≡ trap (machine_of self.now).machine hart.0 }
    {
        self.inner.trap(hart)
    }

    /// Whether the hart's instruction faults.
    pub fn faults(&self, hart: Hart) -> bool
        requires { hart.0 < hart_count (machine_of self.now).machine }
        ensures { result ≡ faults (machine_of self.now) hart.0 }
    {
        self.inner.faults(hart)
    }

    /// Whether the hart fetches an `ebreak` from raw memory: one of the image, or a planted word.
    pub fn meets_ebreak(&self, hart: Hart) -> bool
        requires { hart.0 < hart_count (machine_of self.now).machine }
        ensures { result ≡ is_ebreak (raw_fetched (machine_of self.now) hart.0) }
    {
        self.inner.meets_ebreak(hart)
    }

    /// The pc after the hart's instruction.
    pub fn next(&self, hart: Hart) -> After
        requires { hart.0 < hart_count (machine_of self.now).machine }
        ensures { result ≡ next_pc (machine_of self.now).machine hart.0 }
    {
        self.inner.next(hart)
    }

    /// Where the step word belongs while the hart makes the step that it owes, if it needs one.
    pub fn step_address(&self, hart: Hart) -> Option<u64>
        requires { hart.0 < hart_count (machine_of self.now).machine }
        ensures { result ≡ step_address (machine_of self.now).machine hart.0 }
    {
        self.inner.step_address(hart)
    }

    /// Whether a session was opened yet.
    pub fn opened(&self) -> bool
        ensures { result ≡ (machine_of self.now).machine.opened }
    {
        self.inner.opened
    }

    /// Whether the limit of steps isn't reached.
    pub fn has_steps(&self) -> bool
        ensures { result ≡ nat_lt (machine_of self.now).machine.steps (machine_of self.now).machine.limit }
    {
        self.inner.has_steps()
    }

    /// Whether a line is unread.
    pub fn has_line(&self) -> bool
        ensures { result ≡ has_line (machine_of self.now).machine.unread }
    {
        self.inner.has_line()
    }

    /// How many lines were read.
    pub fn lines(&self) -> u64
        ensures { result ≡ (machine_of self.now).machine.lines_read }
    {
        self.inner.read as u64
    }

    /// The open session, if there is one.
    pub fn session(&self) -> Option<Sitting>
        ensures { result ≡ (machine_of self.now).session }
    {
        self.inner.session
    }

    /// The mask of the harts that the open session holds.
    pub fn held(&self) -> u64
        ensures { result ≡ held_of (machine_of self.now) }
    {
        match self.inner.session {
            None => 0,
            Some(sitting) => all_but(self.inner.harts(), sitting.late),
        }
    }

    /// The mask of the planted places.
    pub fn planted(&self) -> u64
        ensures { result ≡ planted_of (machine_of self.now) }
    {
        self.inner.memory.planted()
    }

    /// The mask of the enabled places.
    pub fn enabled(&self) -> u64
        ensures { result ≡ enabled_of (machine_of self.now) }
    {
        self.inner.enabled()
    }

    /// The address of the step word, where it stands.
    pub fn step_word(&self) -> Option<u64>
        ensures { result ≡ (machine_of self.now).step }
    {
        self.inner.memory.step_word()
    }

    /// Bytes of text that there may be besides those of lines after the next line: one for each step that is left, and 240
    /// for each banner.
    pub fn text_after_line(&self) -> usize
        ensures { result ≡ most_steps (machine_of self.now) + 1 - (machine_of self.now).machine.steps + 240 * (length (machine_of self.now).machine.unread + 2) }
    {
        let inner = &self.inner;
        let steps = inner.limit as usize + inner.read + 1 - inner.steps as usize;
        steps + 240 * (inner.script.len() - inner.read + 2)
    }
}
