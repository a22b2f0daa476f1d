//! The calls of the bus, each under the protocol's contract.
ghost use Rattle.std.specs.Prelude.{◌≡◌, Some, true, IsTrue};
ghost use Rattle.deck_core.specs.declared.plain.act.Act.{Act};
ghost use Rattle.deck_core.specs.declared.plain.act.Act.TheVariants as act;
ghost use Rattle.deck_core.specs.declared.plain.act.Answer.TheVariants as answer;
ghost use Rattle.deck_core.specs.contract.Told.{IsTold};
ghost use Rattle.deck_core.specs.contract.Allowed.{is_allowed};
ghost use Rattle.deck_core.specs.contract.Calls.{HartStepGives, StaysEnded};
ghost use Rattle.plant_mach.specs.Machine.{PlantedMachine};
ghost use Rattle.bus_calls.specs.Bus as bus;
ghost use Rattle.bus_calls.specs.Calls as calls;
ghost use Rattle.bus_calls.specs.Calls.{call_of, is_silent, is_close};
ghost use Rattle.bus_calls.specs.Facts.{over_is, origin_here, origin_on};

use crate::bus::CoreBus;
use deck_core::{Act, Bus, Entered, Lined, Notes, Passed, Turned};
use mach_base::{Ending, Entry, Hart, Reason};

impl CoreBus {
    ghost use Rattle.std.specs.Prelude.{◌≡◌, true, IsTrue};
    ghost use Rattle.deck_core.specs.contract.Allowed.{is_allowed};
    ghost use Rattle.bus_calls.specs.Bus.{told, is_over};
    ghost use Rattle.bus_calls.specs.Calls.{answer_over, is_silent, IsLeft, Does, SameOrigin};

    /// Makes the entry of a call that answers nothing. After the end a closing takes the mask away.
    fn ask(&mut self, call: Act)
        requires allowed { IsTrue (is_allowed call (told self.old)) }
        requires silent { is_silent call ≡ true }
        ensures does { Does call self.old (answer_over call) self.new }
        ensures origin { SameOrigin self.old self.new }
    {
        if self.is_over() {
            if is_close(call) {
                self.release();
            }
        } else {
            self.core.keeps_order();
            self.make(entry_of(call));
        }
    }

    /// Takes the mask away after the end.
    fn release(&mut self)
        requires over { is_over self.old ≡ true }
        ensures left { IsLeft true self.old self.new }
        ensures origin { SameOrigin self.old self.new }
    {
        self.released = true;
        self.stood.mask = 0;
    }
}

/// The entry of a call that answers nothing.
fn entry_of(call: Act) -> Entry
    requires { is_silent call ≡ true }
    ensures { (p : PlantedMachine) → (call_of call p).entry ≡ Some result }
{
    match call {
        Act::Send(to) => Entry::Send(to),
        Act::Pull(place) => Entry::Pull(place),
        Act::PlantStep(at) => Entry::PlantStep(at),
        Act::PullStep => Entry::PullStep,
        Act::Plant(place) => Entry::Plant(place),
        Act::Close(hart) => Entry::Close(hart),
        _ => unreachable!(),
    }
}

/// Whether the call closes a session.
fn is_close(call: Act) -> bool
    ensures { result ≡ is_close call }
{
    matches!(call, Act::Close(_))
}

impl Bus for CoreBus {
    ghost told = { λ b. bus.told b };

    ghost SameOrigin = { λ a b. calls.SameOrigin a b };

    ghost ending = { λ b. bus.ending_of b };

    ghost is_lost = { λ b. b.core.lost };

    ghost Does = { λ call before answer after. calls.Does call before answer after };

    ghost over_is = { over_is };

    ghost origin_here = { origin_here };

    ghost origin_on = { origin_on };

    fn hart_step(&mut self, h: Hart) -> Turned
        requires { IsTrue (is_allowed (act.HartStep h) (bus.told self.old)) }
        ensures gives { HartStepGives h.0 (bus.told self.old) result (bus.told self.new) }
        ensures fits { IsTold (bus.told self.new) }
        ensures ended { StaysEnded (answer.HartStep result) (bus.ending_of self.old) self.old.core.lost (bus.ending_of self.new) self.new.core.lost }
        ensures does { calls.Does (act.HartStep h) self.old (answer.HartStep result) self.new }
        ensures held { calls.HeldStay self.old self.new }
        ensures origin { calls.SameOrigin self.old self.new }
    {
        let answer = self.step(h);
        self.keeps_told();
        answer
    }

    fn check(&mut self, h: Hart) -> Option<Reason> {
        self.keeps_told();
        if self.is_over() {
            None
        } else {
            self.core.trap(h)
        }
    }

    fn send(&mut self, to: Hart) {
        self.ask(Act::Send(to));
        self.keeps_told();
    }

    fn pull(&mut self, i: u8) {
        self.ask(Act::Pull(i));
        self.keeps_told();
    }

    fn plant_step(&mut self, at: u64) {
        self.ask(Act::PlantStep(at));
        self.keeps_told();
    }

    fn pull_step(&mut self) {
        self.ask(Act::PullStep);
        self.keeps_told();
    }

    fn plant(&mut self, i: u8) {
        self.ask(Act::Plant(i));
        self.keeps_told();
    }

    fn close(&mut self, h: Hart) {
        self.ask(Act::Close(h));
        self.keeps_told();
    }

    fn enter(&mut self, h: Hart, late: u64) -> Entered {
        let answer = self.open(h, late);
        self.keeps_told();
        answer
    }

    fn line(&mut self, h: Hart) -> Lined {
        let answer = self.read(h);
        self.keeps_told();
        answer
    }

    fn pass_step(&mut self, h: Hart) -> Passed {
        let answer = self.pass(h);
        self.keeps_told();
        answer
    }

    fn harts(&self) -> u8 {
        self.core.harts()
    }

    fn mask(&self) -> u64 {
        if self.core.lost() {
            self.stood.mask
        } else if self.released {
            0
        } else {
            self.core.held()
        }
    }

    fn over(&self) -> Option<Ending> {
        self.ending()
    }

    fn lost(&self) -> bool {
        self.core.lost()
    }

    fn notes(&self) -> Notes {
        if self.core.lost() {
            self.notes_lost()
        } else {
            self.notes_here()
        }
    }
}
