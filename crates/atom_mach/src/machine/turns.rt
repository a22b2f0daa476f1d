//! Steps by name, and the turns of a machine with one hart.

use crate::machine::Core;
use crate::machine::moves::HART;
use crate::step::AStep;
use mach_base::{Ending, OutOfMemory};

impl Core {
    ghost use Rattle.std.specs.Prelude.{◌≡◌, ◌<◌, [], None, OnOk, vec_len};
    ghost use Rattle.atom_mach.specs.Modes.{ending_of};
    ghost use Rattle.atom_mach.specs.Tried.{Tries};
    ghost use Rattle.atom_mach.specs.Run.{Turns};
    ghost use Rattle.atom_mach.specs.Work.{work_left};
    ghost use Rattle.atom_mach.specs.Core.{state_of};

    /// Makes the step where it is allowed, appending what it prints; false means that it isn't, and nothing is changed.
    pub fn try_step(&mut self, out: &mut Vec<u8>, step: AStep) -> Result<bool, OutOfMemory>
        requires { out.old.items ≡ [] }
        ensures step { Tries (state_of self.old) step result out.new.items (state_of self.new) }
        ensures harts { OnOk result (vec_len self.new.contexts ≡ vec_len self.old.contexts) }
    {
        match step {
            AStep::Instr(hart) => self.instruction(out, hart),
            AStep::Intr(hart) => Ok(self.interrupt(hart)),
            AStep::Session(master) => self.hold_session(out, master),
            AStep::Enter(master, late) => self.enter(out, master, late),
            AStep::Line => self.held_line(out),
            AStep::End => Ok(self.close()),
            AStep::Off(ending) => self.end(out, ending),
        }
    }

    /// Makes the first step that is allowed of taking the interrupt, opening the session, executing, and ending. An
    /// instruction that is next and doesn't fault is executed by one look at its word.
    pub fn turn(&mut self, out: &mut Vec<u8>) -> Result<(), OutOfMemory>
        requires empty { out.old.items ≡ [] }
        requires one_hart { vec_len self.old.contexts ≡ 1 }
        requires running { ending_of self.old.mode ≡ None }
        ensures step { OnOk result (Turns (state_of self.old) out.new.items (state_of self.new)) }
        ensures less { OnOk result (work_left (state_of self.new) < work_left (state_of self.old)) }
        ensures harts { OnOk result (vec_len self.new.contexts ≡ vec_len self.old.contexts) }
    {
        if self.go_on(out)? {
            return Ok(());
        }
        if self.try_step(out, AStep::Intr(HART))? {
            return Ok(());
        }
        if self.try_step(out, AStep::Session(HART))? {
            return Ok(());
        }
        if self.try_step(out, AStep::Instr(HART))? {
            return Ok(());
        }
        if self.try_step(out, AStep::Off(Ending::AllHalted))? {
            return Ok(());
        }
        if self.try_step(out, AStep::Off(Ending::StepLimit))? {
            return Ok(());
        }
        unreachable!()
    }
}
