//! One line of a session.

use crate::machine::Core;
use crate::machine::moves::after_go;
use crate::step::Mode;
use crate::texts::push_prompt;
use kdb_cmd::{Outcome, Said, run_line};
use mach_base::{Hart, OutOfMemory, Reason, all_but, push_bytes, push_newline};

impl Core {
    ghost use Rattle.std.specs.Prelude.{◌≡◌, ◌+◌, ◌<◌, ◌++◌, [], false, IfOk, IfSome, OnOk, drop, length, slice_index_or, vec_len};
    ghost use Rattle.mach_base.specs.Texts.{newline};
    ghost use Rattle.mach_base.specs.Masks.{has_bit};
    ghost use Rattle.atom_mach.specs.Modes.{IsSitting, Fits, IsGathered, ReadsWith};
    ghost use Rattle.atom_mach.specs.Session.{with_read, prompt_text, mode_of_go, mode_left, with_seen};
    ghost use Rattle.atom_mach.specs.Core.{machine_of, next_line, next_effect, next_said};

    /// Appends the prompt and the line that is read next.
    fn push_echo(&self, out: &mut Vec<u8>) -> Result<(), OutOfMemory>
        requires { self.now.read < length self.now.script }
        ensures { OnOk result (out.new.items ≡ out.old.items ++ (prompt_text (machine_of self.now) ++ (next_line self.now ++ newline))) }
    {
        push_prompt(out, &self.kdb.env, self.kdb.current)?;
        push_bytes(out, self.script.line(self.read))?;
        push_newline(out)?;
        Ok(())
    }

    /// Reads the next line of a session and runs it. The processors in the session are all but the late ones.
    fn read_line(&mut self, master: Hart, late: u64) -> Result<Said, OutOfMemory>
        requires left { self.old.read < length self.old.script }
        requires sitting { IsSitting (vec_len self.old.contexts) master late }
        requires reads { ReadsWith self.old.mode late }
        requires gathered { has_bit late self.old.kdb.current ≡ false }
        ensures said { IfOk result (λ said. next_said self.old master late ≡ record { output = said.text; state = (machine_of self.new).seen; outcome = said.outcome }) }
        ensures machine { OnOk result (machine_of self.new ≡ with_seen (with_read (machine_of self.old) (drop (self.old.read + 1) self.old.script)) (machine_of self.new).seen) }
        ensures gathered { OnOk result (has_bit late self.new.kdb.current ≡ false) }
        ensures read { OnOk result (self.new.read ≡ self.old.read + 1) }
        ensures harts { OnOk result (vec_len self.new.contexts ≡ vec_len self.old.contexts) }
        ensures script { self.new.script ≡ self.old.script }
        ensures steps { self.new.steps ≡ self.old.steps }
        ensures limit { self.new.limit ≡ self.old.limit }
        ensures mode { self.new.mode ≡ self.old.mode }
    {
        let gathered = all_but(self.harts(), late);
        match run_line(
            self.alloc,
            &mut self.map,
            self.contexts.as_mut_slice(),
            &mut self.kdb,
            &self.names,
            gathered,
            master,
            self.script.line(self.read),
        ) {
            Ok(said) => {
                self.read += 1;
                Ok(said)
            }
            Err(OutOfMemory) => Err(OutOfMemory),
        }
    }

    /// The mode after `go`: a pass where the master would stop at once.
    fn mode_of_go(&self, master: Hart, late: u64) -> Mode
        requires { IsSitting (vec_len self.now.contexts) master late }
        ensures mode { result ≡ mode_of_go (machine_of self.now) master late }
        ensures fits { Fits (vec_len self.now.contexts) result }
        ensures gathered { IsGathered result self.now.kdb.current }
    {
        match self.trap(master) {
            Some(Reason::Breakpoint(_)) | Some(Reason::Compiled) => Mode::Pass {
                master,
                late,
                again: false,
            },
            _ => after_go(master, late),
        }
    }

    /// The mode in which a line of this outcome leaves the session.
    fn mode_left(&self, outcome: Outcome, master: Hart, late: u64) -> Option<Mode>
        requires { IsSitting (vec_len self.now.contexts) master late }
        ensures mode { result ≡ mode_left outcome (machine_of self.now) master late }
        ensures fits { IfSome result (λ mode. Fits (vec_len self.now.contexts) mode) }
        ensures gathered { IfSome result (λ mode. IsGathered mode self.now.kdb.current) }
    {
        match outcome {
            Outcome::Stay => None,
            Outcome::Go => Some(self.mode_of_go(master, late)),
            Outcome::Step => Some(Mode::Pass {
                master,
                late,
                again: true,
            }),
        }
    }

    /// Reads and runs the next line of a session, and appends its prompt, the line and what it prints; the answer is the
    /// mode in which the line leaves the session, if it does.
    pub fn line(
        &mut self,
        out: &mut Vec<u8>,
        master: Hart,
        late: u64,
    ) -> Result<Option<Mode>, OutOfMemory>
        requires unread { self.old.read < length self.old.script }
        requires sitting { IsSitting (vec_len self.old.contexts) master late }
        requires reads { ReadsWith self.old.mode late }
        requires gathered { has_bit late self.old.kdb.current ≡ false }
        ensures text { OnOk result (out.new.items ≡ out.old.items ++ (next_effect self.old master late).text) }
        ensures machine { OnOk result (machine_of self.new ≡ (next_effect self.old master late).machine) }
        ensures left { IfOk result (λ left. left ≡ (next_effect self.old master late).left) }
        ensures fits { IfOk result (λ left. IfSome left (λ mode. Fits (vec_len self.new.contexts) mode)) }
        ensures gathered_in { IfOk result (λ left. IfSome left (λ mode. IsGathered mode self.new.kdb.current)) }
        ensures gathered { OnOk result (has_bit late self.new.kdb.current ≡ false) }
        ensures read { OnOk result (self.new.read ≡ self.old.read + 1) }
        ensures harts { OnOk result (vec_len self.new.contexts ≡ vec_len self.old.contexts) }
        ensures script { self.new.script ≡ self.old.script }
        ensures steps { self.new.steps ≡ self.old.steps }
        ensures limit { self.new.limit ≡ self.old.limit }
        ensures mode { self.new.mode ≡ self.old.mode }
    {
        self.push_echo(out)?;
        let said = self.read_line(master, late)?;
        push_bytes(out, said.text.as_bytes())?;
        Ok(self.mode_left(said.outcome, master, late))
    }
}
