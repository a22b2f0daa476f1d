//! How a run ends.

use crate::machine::Core;
use crate::step::Mode;
use crate::texts::push_last_prompt;
use mach_base::{Ending, OutOfMemory};

impl Core {
    ghost use Rattle.std.specs.Prelude.{◌≡◌, ◌≢◌, ◌&&◌, [], OnOk, vec_len};
    ghost use Rattle.atom_mach.specs.Tried.{Moves, Tries};
    ghost use Rattle.mach_base.specs.declared.event.Ending.TheVariants.{ScriptEnd};
    ghost use Rattle.atom_mach.specs.declared.step.AStep.TheVariants.{Off};
    ghost use Rattle.atom_mach.specs.Step.{all_halted, is_true_ending, holds_at_end};
    ghost use Rattle.atom_mach.specs.Modes.{is_free};
    ghost use Rattle.atom_mach.specs.Core.{machine_of, state_of};

    /// Ends the run where the ending is true.
    pub fn end(&mut self, out: &mut Vec<u8>, ending: Ending) -> Result<bool, OutOfMemory>
        requires { out.old.items ≡ [] }
        ensures step { Tries (state_of self.old) (Off ending) result out.new.items (state_of self.new) }
        ensures harts { OnOk result (vec_len self.new.contexts ≡ vec_len self.old.contexts) }
    {
        match ending {
            Ending::ScriptEnd => self.end_script(out),
            Ending::AllHalted | Ending::StepLimit | Ending::PlanEnd => Ok(self.end_free(ending)),
        }
    }

    /// Ends the run at the prompt of a session with late harts that finds no line.
    #[tactic(auto, unfolding(crate::specs::Step::does))]
    fn end_script(&mut self, out: &mut Vec<u8>) -> Result<bool, OutOfMemory>
        requires { out.old.items ≡ [] }
        ensures step { Tries (state_of self.old) (Off ScriptEnd) result out.new.items (state_of self.new) }
        ensures harts { OnOk result (vec_len self.new.contexts ≡ vec_len self.old.contexts) }
    {
        if !self.holds_at_end() {
            return Ok(false);
        }
        match push_last_prompt(out, &self.kdb.env, self.kdb.current) {
            Ok(()) => {
                self.mode = Mode::Over(Ending::ScriptEnd);
                Ok(true)
            }
            Err(OutOfMemory) => Err(OutOfMemory),
        }
    }

    #[tactic(auto, using(crate::proofs::SessionLines::at_end))]
    fn holds_at_end(&self) -> bool
        ensures { result ≡ holds_at_end self.now.mode (machine_of self.now).unread }
    {
        match self.mode {
            Mode::Hold { .. } => self.read == self.script.len(),
            Mode::Free
            | Mode::Pass { .. }
            | Mode::Back { .. }
            | Mode::Leave { .. }
            | Mode::Over(_) => { false }
        }
    }

    /// Ends the run of a free machine.
    fn end_free(&mut self, ending: Ending) -> bool
        requires { ending ≢ ScriptEnd }
        ensures step { Moves (state_of self.old) (Off ending) result [] (state_of self.new) }
        ensures harts { vec_len self.new.contexts ≡ vec_len self.old.contexts }
    {
        if self.has_ended(ending) {
            self.mode = Mode::Over(ending);
            return true;
        }
        false
    }

    fn all_halted(&self) -> bool
        ensures { result ≡ all_halted self.now.contexts.items }
    {
        self.contexts.iter().all(|context| context.halted)
    }

    fn has_ended(&self, ending: Ending) -> bool
        ensures { result ≡ (is_free self.now.mode && is_true_ending (machine_of self.now) ending) }
    {
        let is_true = match ending {
            Ending::AllHalted => self.all_halted(),
            Ending::StepLimit => !self.all_halted() && self.steps >= self.limit,
            Ending::ScriptEnd | Ending::PlanEnd => false,
        };
        matches!(self.mode, Mode::Free) && is_true
    }
}
