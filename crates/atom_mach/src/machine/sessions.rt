//! Sessions: whole ones with no late harts, and the steps of those with late harts.

use crate::machine::Core;
use crate::step::Mode;
use crate::texts::{push_banner, push_last_prompt};
use mach_base::{Ending, Hart, OutOfMemory, Reason, has_bit};

impl Core {
    ghost use Rattle.std.specs.Prelude.{◌≡◌, ◌≢◌, ◌<◌, ◌^◌, ◌++◌, [], Some, OnOk, length, vec_len};
    ghost use Rattle.atom_mach.specs.State.{prefixed};
    ghost use Rattle.atom_mach.specs.Modes.{IsSitting, ReadsWith};
    ghost use Rattle.atom_mach.specs.Tried.{Moves, Tries};
    ghost use Rattle.atom_mach.specs.declared.step.AStep.TheVariants.{Session, Enter, Line, End};
    ghost use Rattle.atom_mach.specs.Session.{opening_reason, session_opening, session_lines, session};
    ghost use Rattle.atom_mach.specs.Step.{can_be_late, held_from};
    ghost use Rattle.atom_mach.specs.Core.{machine_of, state_of};

    /// One more than the greatest mask of the machine's harts.
    #[tactic(auto, using(crate::proofs::Masks::one_at))]
    fn mask_limit(&self) -> u64
        ensures { result ≡ 2 ^ length self.now.contexts.items }
    {
        1 << self.harts()
    }

    /// Opens a session for this reason: its banner, and the master is the current processor.
    fn open(
        &mut self,
        out: &mut Vec<u8>,
        master: Hart,
        late: u64,
        reason: Reason,
    ) -> Result<(), OutOfMemory>
        requires there { master.0 < vec_len self.old.contexts }
        requires opens { opening_reason self.old.mode (machine_of self.old) master.0 late ≡ Some reason }
        ensures text { OnOk result (out.new.items ≡ out.old.items ++ (session_opening (machine_of self.old) master late reason).text) }
        ensures machine { OnOk result (machine_of self.new ≡ (session_opening (machine_of self.old) master late reason).machine) }
        ensures current { OnOk result (self.new.kdb.current ≡ master.0) }
        ensures harts { OnOk result (vec_len self.new.contexts ≡ vec_len self.old.contexts) }
        ensures mode { self.new.mode ≡ self.old.mode }
    {
        let pc = self.context(master).pc;
        push_banner(out, late, master, reason, pc)?;
        self.kdb.current = master.0;
        self.opened = true;
        Ok(())
    }

    /// Runs the lines of a session with no late harts.
    #[tactic(auto, using(crate::proofs::Masks::sits, crate::proofs::Masks::none_has))]
    fn session_lines(&mut self, out: &mut Vec<u8>, master: Hart) -> Result<(), OutOfMemory>
        requires there { master.0 < vec_len self.old.contexts }
        requires reads { ReadsWith self.old.mode 0 }
        ensures harts { OnOk result (vec_len self.new.contexts ≡ vec_len self.old.contexts) }
        ensures lines { OnOk result (prefixed out.old.items (session_lines master (machine_of self.old).unread (machine_of self.old)) ≡ record { text = out.new.items; next = state_of self.new }) }
    {
        while self.read < self.script.len() {
            if let Some(mode) = self.line(out, master, 0)? {
                self.mode = mode;
                return Ok(());
            }
        }
        push_last_prompt(out, &self.kdb.env, self.kdb.current)?;
        self.mode = Mode::Over(Ending::ScriptEnd);
        Ok(())
    }

    /// Opens a session with no late harts and runs its lines, up to the first that leaves, or to a prompt that finds none.
    #[tactic(auto, unfolding(crate::specs::Session::session), using(crate::proofs::Allowed::opening_reads))]
    fn session(
        &mut self,
        out: &mut Vec<u8>,
        master: Hart,
        reason: Reason,
    ) -> Result<(), OutOfMemory>
        requires empty { out.old.items ≡ [] }
        requires there { master.0 < vec_len self.old.contexts }
        requires opens { opening_reason self.old.mode (machine_of self.old) master.0 0 ≡ Some reason }
        ensures harts { OnOk result (vec_len self.new.contexts ≡ vec_len self.old.contexts) }
        ensures session { OnOk result (session (machine_of self.old) master reason ≡ record { text = out.new.items; next = state_of self.new }) }
    {
        self.open(out, master, 0, reason)?;
        self.session_lines(out, master)?;
        Ok(())
    }

    /// Holds a session with no late harts, where the hart may open one.
    pub fn hold_session(&mut self, out: &mut Vec<u8>, master: Hart) -> Result<bool, OutOfMemory>
        requires { out.old.items ≡ [] }
        ensures step { Tries (state_of self.old) (Session master) result out.new.items (state_of self.new) }
        ensures harts { OnOk result (vec_len self.new.contexts ≡ vec_len self.old.contexts) }
    {
        if !self.has(master) {
            return Ok(false);
        }
        match self.opening_reason(master, 0) {
            Some(reason) => match self.session(out, master, reason) {
                Ok(()) => Ok(true),
                Err(OutOfMemory) => Err(OutOfMemory),
            },
            None => Ok(false),
        }
    }

    /// Whether these harts can be late in a session of this master: there are some, and the master is none of them.
    fn can_be_late(&self, master: Hart, late: u64) -> bool
        ensures { result ≡ can_be_late (state_of self.now) master late }
    {
        self.has(master) && late != 0 && late < self.mask_limit() && !has_bit(late, master.0)
    }

    /// Opens a session with late harts.
    fn hold(
        &mut self,
        out: &mut Vec<u8>,
        master: Hart,
        late: u64,
        reason: Reason,
    ) -> Result<(), OutOfMemory>
        requires empty { out.old.items ≡ [] }
        requires sitting { IsSitting (vec_len self.old.contexts) master late }
        requires some { late ≢ 0 }
        requires opens { opening_reason self.old.mode (machine_of self.old) master.0 late ≡ Some reason }
        ensures harts { OnOk result (vec_len self.new.contexts ≡ vec_len self.old.contexts) }
        ensures session { OnOk result (held_from master late (session_opening (machine_of self.old) master late reason) ≡ record { text = out.new.items; next = state_of self.new }) }
    {
        self.open(out, master, late, reason)?;
        self.mode = Mode::Hold { master, late };
        Ok(())
    }

    /// Opens a session with late harts, where the hart may open one.
    pub fn enter(&mut self, out: &mut Vec<u8>, master: Hart, late: u64) -> Result<bool, OutOfMemory>
        requires { out.old.items ≡ [] }
        ensures step { Tries (state_of self.old) (Enter master late) result out.new.items (state_of self.new) }
        ensures harts { OnOk result (vec_len self.new.contexts ≡ vec_len self.old.contexts) }
    {
        if !self.can_be_late(master, late) {
            return Ok(false);
        }
        match self.opening_reason(master, late) {
            Some(reason) => match self.hold(out, master, late, reason) {
                Ok(()) => Ok(true),
                Err(OutOfMemory) => Err(OutOfMemory),
            },
            None => Ok(false),
        }
    }

    /// Reads and runs one line of a session with late harts, where one is open and a line is unread.
    #[tactic(auto, unfolding(crate::specs::Step::does))]
    pub fn held_line(&mut self, out: &mut Vec<u8>) -> Result<bool, OutOfMemory>
        requires { out.old.items ≡ [] }
        ensures step { Tries (state_of self.old) Line result out.new.items (state_of self.new) }
        ensures harts { OnOk result (vec_len self.new.contexts ≡ vec_len self.old.contexts) }
    {
        let Mode::Hold { master, late } = self.mode else {
            return Ok(false);
        };
        if self.read == self.script.len() {
            return Ok(false);
        }
        match self.line(out, master, late) {
            Ok(Some(mode)) => {
                self.mode = mode;
                Ok(true)
            }
            Ok(None) => Ok(true),
            Err(OutOfMemory) => Err(OutOfMemory),
        }
    }

    /// Closes a session with late harts that a line has left.
    #[tactic(auto, unfolding(crate::specs::Step::does))]
    pub fn close(&mut self) -> bool
        ensures step { Moves (state_of self.old) End result [] (state_of self.new) }
        ensures harts { vec_len self.new.contexts ≡ vec_len self.old.contexts }
    {
        match self.mode {
            Mode::Leave { .. } => {
                self.mode = Mode::Free;
                true
            }
            Mode::Free
            | Mode::Hold { .. }
            | Mode::Pass { .. }
            | Mode::Back { .. }
            | Mode::Over(_) => { false }
        }
    }
}
