//! What a hart does by itself: instructions and interrupts.
ghost use Rattle.std.specs.Prelude.{◌≡◌, ◌++◌, OnOk};
ghost use Rattle.std.specs.Option.{option_to_list};
ghost use Rattle.atom_mach.specs.Modes.{after_go};

use crate::machine::Core;
use crate::step::Mode;
use hart_step::{Did, exec};
use mach_base::{Hart, OutOfMemory};
use rv_table::EBREAK;
use trap_ipi::{take, takeable};

/// The only hart of a machine with one.
pub const HART: Hart = Hart(0);

impl Core {
    ghost use Rattle.std.specs.Prelude.{◌≡◌, ◌+◌, ◌<◌, ◌≤◌, ◌++◌, [], true, false, None, IsTrue, IfSome, IfNone, IfOk, MatchBool, OnOk, vec_len};
    ghost use Rattle.std.specs.Option.{option_to_list};
    ghost use Rattle.atom_mach.specs.Modes.{owes, mode_after, owed, Fits, IsGathered};
    ghost use Rattle.atom_mach.specs.Tried.{Moves, Tries};
    ghost use Rattle.atom_mach.specs.declared.step.AStep.TheVariants.{Instr, Intr};
    ghost use Rattle.atom_mach.specs.Traps.{fault_of, executed, console_text};
    ghost use Rattle.atom_mach.specs.Core.{machine_of, state_of};
    ghost use Rattle.atom_mach.specs.NextWord.{IsNext};
    ghost use Rattle.atom_mach.specs.Run.{Turns};
    ghost use Rattle.atom_mach.specs.Work.{work_left};

    /// Executes the hart's instruction; this is the mode then. The answer is the byte that goes to the console, if any.
    #[tactic(auto, unfolding(crate::specs::Traps::executed, crate::specs::Traps::fault_of, crate::specs::Traps::console_text))]
    fn execute(&mut self, hart: Hart, mode: Mode) -> Option<u8>
        requires hart { hart.0 < vec_len self.old.contexts }
        requires right { fault_of (machine_of self.old) hart.0 ≡ None }
        requires fits { Fits (vec_len self.old.contexts) mode }
        requires gathered { IsGathered mode self.old.kdb.current }
        requires room { self.old.steps + 1 + owed mode ≤ self.old.limit + self.old.read }
        requires owed_lines { owed mode ≤ self.old.read }
        ensures machine { machine_of self.new ≡ executed (machine_of self.old) hart.0 }
        ensures mode { self.new.mode ≡ mode }
        ensures harts { vec_len self.new.contexts ≡ vec_len self.old.contexts }
        ensures console { option_to_list result ≡ console_text (machine_of self.old) hart.0 }
    {
        let pc = self.context(hart).pc;
        let word = match self.map.fetch(pc) {
            Ok(word) => word,
            Err(_) => unreachable!(),
        };
        self.steps += 1;
        self.mode = mode;
        match exec(self.contexts.as_mut_slice(), &mut self.map, hart, word) {
            Did::Done(byte) => byte,
            Did::Fault(_) => unreachable!(),
        }
    }

    /// The word that is next for the only hart in the free machine, by one look at it: nothing but a fault of its own keeps
    /// it from being executed. None where something else is next, and where the word is an `ebreak`.
    fn next_word(&self) -> Option<u32>
        requires { vec_len self.now.contexts ≡ 1 }
        ensures { IfSome result (λ word. IsNext (state_of self.now) word) }
    {
        let context = self.context(HART);
        match self.mode {
            Mode::Free => (),
            _ => return None,
        }
        if !self.opened || context.halted || takeable(context) || self.steps >= self.limit {
            return None;
        }
        if self.kdb.breaks.enabled_at(context.pc).is_some() {
            return None;
        }
        match self.map.fetch(context.pc) {
            Ok(EBREAK) | Err(_) => None,
            Ok(word) => Some(word),
        }
    }

    /// Executes the word at the only hart's pc, in the free machine below the limit. The answer is the byte that goes to the
    /// console, if any; None where the word faults, and nothing is changed then.
    #[tactic(auto, unfolding(crate::specs::Traps::executed, crate::specs::Traps::fault_of, crate::specs::Traps::console_text))]
    fn execute_word(&mut self, word: u32) -> Option<Option<u8>>
        requires one_hart { vec_len self.old.contexts ≡ 1 }
        requires next { IsNext (state_of self.old) word }
        ensures same { IfNone result (state_of self.new ≡ state_of self.old) }
        ensures right { IfSome result (λ byte. fault_of (machine_of self.old) 0 ≡ None) }
        ensures machine { IfSome result (λ byte. machine_of self.new ≡ executed (machine_of self.old) 0) }
        ensures mode { self.new.mode ≡ self.old.mode }
        ensures console { IfSome result (λ byte. option_to_list byte ≡ console_text (machine_of self.old) 0) }
        ensures harts { vec_len self.new.contexts ≡ vec_len self.old.contexts }
    {
        match exec(self.contexts.as_mut_slice(), &mut self.map, HART, word) {
            Did::Done(byte) => {
                self.steps += 1;
                Some(byte)
            }
            Did::Fault(_) => None,
        }
    }

    /// Executes the only hart's instruction where it is next and doesn't fault, and says whether it did, appending its
    /// console byte. If not, nothing is changed.
    pub fn go_on(&mut self, out: &mut Vec<u8>) -> Result<bool, OutOfMemory>
        requires empty { out.old.items ≡ [] }
        requires one_hart { vec_len self.old.contexts ≡ 1 }
        ensures step { IfOk result (λ moved. MatchBool moved (Turns (state_of self.old) out.new.items (state_of self.new)) ((state_of self.new ≡ state_of self.old) × (out.new.items ≡ []))) }
        ensures less { IfOk result (λ moved. moved ≡ true → work_left (state_of self.new) < work_left (state_of self.old)) }
        ensures harts { OnOk result (vec_len self.new.contexts ≡ vec_len self.old.contexts) }
    {
        let Some(word) = self.next_word() else {
            return Ok(false);
        };
        let Some(byte) = self.execute_word(word) else {
            return Ok(false);
        };
        push_console(out, byte)?;
        Ok(true)
    }

    /// The mode after the instruction that the hart owes.
    fn mode_after_pass(&self, hart: Hart) -> Mode
        requires { IsTrue (owes self.now.mode hart.0) }
        ensures mode { result ≡ mode_after self.now.mode hart.0 }
        ensures fits { Fits (vec_len self.now.contexts) result }
        ensures gathered { IsGathered result self.now.kdb.current }
        ensures nothing_owed { owed result ≡ 0 }
    {
        match self.mode {
            Mode::Pass {
                master,
                late,
                again: true,
            } => Mode::Back { master, late },
            Mode::Pass {
                master,
                late,
                again: false,
            } => after_go(master, late),
            _ => unreachable!(),
        }
    }

    /// Executes the hart's instruction where that is allowed, appending its console byte.
    pub fn instruction(&mut self, out: &mut Vec<u8>, hart: Hart) -> Result<bool, OutOfMemory>
        requires { out.old.items ≡ [] }
        ensures step { Tries (state_of self.old) (Instr hart) result out.new.items (state_of self.new) }
        ensures harts { OnOk result (vec_len self.new.contexts ≡ vec_len self.old.contexts) }
    {
        if !self.has(hart) {
            return Ok(false);
        }
        if self.may_run(hart) {
            let byte = self.execute(hart, self.mode);
            return match push_console(out, byte) {
                Ok(()) => Ok(true),
                Err(OutOfMemory) => Err(OutOfMemory),
            };
        }
        if self.may_pass(hart) {
            let byte = self.execute(hart, self.mode_after_pass(hart));
            return match push_console(out, byte) {
                Ok(()) => Ok(true),
                Err(OutOfMemory) => Err(OutOfMemory),
            };
        }
        Ok(false)
    }

    /// Takes the hart's interrupt where that is allowed.
    #[tactic(auto, unfolding(crate::specs::Step::does))]
    pub fn interrupt(&mut self, hart: Hart) -> bool
        ensures step { Moves (state_of self.old) (Intr hart) result [] (state_of self.new) }
        ensures harts { vec_len self.new.contexts ≡ vec_len self.old.contexts }
    {
        if !self.has(hart) || !self.may_take(hart) {
            return false;
        }
        take(&mut self.contexts[usize::from(hart.0)]);
        self.steps += 1;
        true
    }
}

/// The mode once a session is left by `go` and no instruction is owed.
pub fn after_go(master: Hart, late: u64) -> Mode
    ensures { result ≡ after_go master late }
{
    if late == 0 {
        Mode::Free
    } else {
        Mode::Leave { master, late }
    }
}

/// Appends the byte that an instruction sends to the console, if any.
fn push_console(out: &mut Vec<u8>, byte: Option<u8>) -> Result<(), OutOfMemory>
    ensures { OnOk result (out.new.items ≡ out.old.items ++ option_to_list byte) }
{
    if let Some(byte) = byte {
        out.push(byte)?;
    }
    Ok(())
}
