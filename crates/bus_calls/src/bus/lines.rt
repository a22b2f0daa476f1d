//! What lines and the steps of single-step passes answer.
use crate::bus::CoreBus;
use deck_core::{Entered, Lined, Passed, Stage};
use mach_base::{Ending, Entry, Hart, OutOfMemory};

impl CoreBus {
    ghost use Rattle.std.specs.Prelude.{◌≡◌, ◌<◌, false, true, IsTrue};
    ghost use Rattle.deck_core.specs.contract.Allowed.{is_allowed};
    ghost use Rattle.deck_core.specs.contract.Calls.{is_lost_line};
    ghost use Rattle.deck_core.specs.declared.plain.act.Act.TheVariants as act;
    ghost use Rattle.deck_core.specs.declared.plain.act.Answer.TheVariants as answer;
    ghost use Rattle.mach_base.specs.declared.event.Ending.TheVariants.{ScriptEnd};
    ghost use Rattle.mach_base.specs.declared.event.Entry.TheVariants.{Line, Off};
    ghost use Rattle.plant_mach.specs.Entries.{has_line, may};
    ghost use Rattle.bus_core.specs.Core.{machine_of};
    ghost use Rattle.bus_calls.specs.Bus.{told, is_over};
    ghost use Rattle.bus_calls.specs.Calls.{lined_in, passed_in, Does, SameOrigin};

    /// What a line answers, by the stage in which it left the session.
    fn lined(&self) -> Lined
        ensures { result ≡ lined_in (machine_of self.now.core) (machine_of self.now.core).session }
    {
        self.core.keeps_bounds();
        let Some(sitting) = self.core.session() else {
            return Lined::Stay;
        };
        match sitting.stage {
            Stage::Lines | Stage::Back => Lined::Stay,
            Stage::Pass { again } => Lined::Pass {
                at: self.core.step_address(sitting.master),
                again,
            },
            Stage::Leaving => Lined::Free {
                enabled: self.core.enabled(),
            },
        }
    }

    /// What the step of a pass answers, by the stage after it.
    fn passed(&self) -> Passed
        ensures { result ≡ passed_in (machine_of self.now.core) (machine_of self.now.core).session }
    {
        match self.core.session() {
            Some(sitting) if sitting.stage == Stage::Back => Passed::Back,
            _ => Passed::Free {
                enabled: self.core.enabled(),
            },
        }
    }

    /// Opens a session of the hart with these late harts, or opens it again.
    pub fn open(&mut self, hart: Hart, late: u64) -> Entered
        requires allowed { IsTrue (is_allowed (act.Enter hart late) (told self.old)) }
        ensures does { Does (act.Enter hart late) self.old (answer.Enter result) self.new }
        ensures origin { SameOrigin self.old self.new }
    {
        if self.is_over() {
            return Entered::Off;
        }
        self.core.keeps_order();
        let planted = self.core.planted();
        self.make(Entry::Open(hart, late));
        Entered::Inside { planted }
    }

    /// Reads the next line of the hart's session, or comes to the script's end.
    pub fn read(&mut self, hart: Hart) -> Lined
        requires allowed { IsTrue (is_allowed (act.Line hart) (told self.old)) }
        ensures does { Does (act.Line hart) self.old (answer.Line result) self.new }
        ensures origin { SameOrigin self.old self.new }
    {
        if self.is_over() {
            return Lined::Ended;
        }
        self.core.keeps_order();
        if self.core.has_line() {
            self.read_line(hart)
        } else {
            self.end_script(hart)
        }
    }

    /// Reads the next line of the hart's session.
    fn read_line(&mut self, hart: Hart) -> Lined
        requires allowed { IsTrue (is_allowed (act.Line hart) (told self.old)) }
        requires going { is_over self.old ≡ false }
        requires line { has_line (machine_of self.old.core).machine.unread ≡ true }
        requires legal { may (machine_of self.old.core) (Line hart) ≡ true }
        ensures does { Does (act.Line hart) self.old (answer.Line result) self.new }
        ensures origin { SameOrigin self.old self.new }
    {
        match self.speak(Entry::Line(hart)) {
            Ok(()) => self.lined(),
            Err(OutOfMemory) => Lined::Lost,
        }
    }

    /// Comes to the script's end in the hart's session.
    fn end_script(&mut self, hart: Hart) -> Lined
        requires going { is_over self.old ≡ false }
        requires line { has_line (machine_of self.old.core).machine.unread ≡ false }
        requires legal { may (machine_of self.old.core) (Off ScriptEnd) ≡ true }
        ensures does { Does (act.Line hart) self.old (answer.Line result) self.new }
        ensures origin { SameOrigin self.old self.new }
    {
        let _ = hart;
        match self.speak(Entry::Off(Ending::ScriptEnd)) {
            Ok(()) => Lined::Ended,
            Err(OutOfMemory) => Lined::Lost,
        }
    }

    /// Executes the instruction of the hart's single-step pass.
    pub fn pass(&mut self, hart: Hart) -> Passed
        requires allowed { IsTrue (is_allowed (act.PassStep hart) (told self.old)) }
        ensures does { Does (act.PassStep hart) self.old (answer.PassStep result) self.new }
        ensures origin { SameOrigin self.old self.new }
    {
        if self.is_over() {
            return Passed::Free { enabled: 0 };
        }
        self.core.keeps_order();
        if self.core.faults(hart) {
            return Passed::Faulted;
        }
        self.make(Entry::Step(hart));
        self.passed()
    }
}
