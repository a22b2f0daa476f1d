//! What a hart does by itself, outside a session.
ghost use Rattle.std.specs.Prelude.{◌≡◌, Some, None};

use crate::bus::CoreBus;
use deck_core::Turned;
use mach_base::{Ending, Entry, Hart};
use plant_mach::entries_leave_others;
use trap_ipi::takeable;

/// The entry that a hart makes, if any, and what it answers.
#[derive(Clone, Copy)]
struct Turn {
    entry: Option<Entry>,
    answer: Turned,
}

/// The hart makes this entry.
fn making(entry: Entry, answer: Turned) -> Turn
    ensures { result ≡ record { entry = Some entry; answer = answer } }
{
    Turn {
        entry: Some(entry),
        answer,
    }
}

/// The hart makes no entry.
fn quietly(answer: Turned) -> Turn
    ensures { result ≡ record { entry = None; answer = answer } }
{
    Turn {
        entry: None,
        answer,
    }
}

impl CoreBus {
    ghost use Rattle.std.specs.Prelude.{◌≡◌, ◌<◌, false, IsTrue};
    ghost use Rattle.deck_core.specs.contract.Allowed.{is_allowed};
    ghost use Rattle.deck_core.specs.declared.plain.act.Act.TheVariants as act;
    ghost use Rattle.deck_core.specs.declared.plain.act.Answer.TheVariants as answer;
    ghost use Rattle.atom_mach.specs.State.{hart_count};
    ghost use Rattle.plant_mach.specs.Machine.{is_held};
    ghost use Rattle.bus_core.specs.Core.{machine_of};
    ghost use Rattle.bus_calls.specs.Bus.{told, is_over};
    ghost use Rattle.bus_calls.specs.Calls.{is_idle, is_trapped, turn_of, turned_as, IsMade, Does, HeldStay, SameOrigin};

    /// Whether the hart has nothing to do.
    fn is_idle(&self, hart: Hart) -> bool
        requires { hart.0 < hart_count (machine_of self.now.core).machine }
        ensures { result ≡ is_idle (machine_of self.now.core) hart.0 }
    {
        self.core.context(hart).halted
            || (!self.core.opened() && hart.0 != 0)
            || !self.core.has_steps()
    }

    /// Whether the hart's instruction traps.
    fn is_trapped(&self, hart: Hart) -> bool
        requires { hart.0 < hart_count (machine_of self.now.core).machine }
        ensures { result ≡ is_trapped (machine_of self.now.core) hart.0 }
    {
        self.core.meets_ebreak(hart) || self.core.faults(hart)
    }

    /// What the hart does next: the first that holds.
    fn next_turn(&self, hart: Hart) -> Turn
        requires { hart.0 < hart_count (machine_of self.now.core).machine }
        ensures { turned_as result.entry result.answer ≡ turn_of (machine_of self.now.core) hart }
    {
        let all_halted = Entry::Off(Ending::AllHalted);
        let step_limit = Entry::Off(Ending::StepLimit);
        if self.core.is_legal(all_halted) {
            making(all_halted, Turned::Off)
        } else if self.core.is_legal(step_limit) {
            making(step_limit, Turned::Off)
        } else if self.core.is_legal(Entry::Take(hart)) {
            making(Entry::Take(hart), Turned::Called)
        } else if self.is_idle(hart) {
            quietly(Turned::Idle)
        } else if !self.core.opened() {
            quietly(Turned::Trapped)
        } else if takeable(self.core.context(hart)) {
            making(Entry::Intr(hart), Turned::Took)
        } else if self.is_trapped(hart) {
            quietly(Turned::Trapped)
        } else {
            making(Entry::Step(hart), Turned::Stepped)
        }
    }

    /// The hart does what it does next.
    fn turn(&mut self, hart: Hart) -> Turned
        requires going { is_over self.old ≡ false }
        requires there { hart.0 < hart_count (machine_of self.old.core).machine }
        requires free { is_held (machine_of self.old.core) hart.0 ≡ false }
        ensures answer { answer.HartStep result ≡ (turn_of (machine_of self.old.core) hart).answer }
        ensures made { IsMade (turn_of (machine_of self.old.core) hart).entry self.old self.new }
        ensures held { HeldStay self.old self.new }
        ensures origin { SameOrigin self.old self.new }
    {
        entries_leave_others();
        let turn = self.next_turn(hart);
        if let Some(entry) = turn.entry {
            self.make(entry);
        }
        turn.answer
    }

    /// The call of a hart outside a session.
    pub fn step(&mut self, hart: Hart) -> Turned
        requires allowed { IsTrue (is_allowed (act.HartStep hart) (told self.old)) }
        ensures does { Does (act.HartStep hart) self.old (answer.HartStep result) self.new }
        ensures held { HeldStay self.old self.new }
        ensures origin { SameOrigin self.old self.new }
    {
        if self.is_over() {
            return Turned::Off;
        }
        self.turn(hart)
    }
}
