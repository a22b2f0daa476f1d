//! Entries that print a prompt: one line of a session, and the prompt that finds none.
ghost use Rattle.std.specs.Prelude.{◌≡◌};

use crate::inner::Inner;
use atom_mach::{put_last_prompt, put_prompt};
use deck_core::{Sitting, Stage};
use kdb_cmd::{Outcome, Said, run_line};
use mach_base::{Ending, Hart, OutOfMemory, Reason, all_but, push_bytes, push_newline};

/// The bytes that the current processor adds to the template of a prompt, at most.
const NUMBER_BYTES: usize = 20;

impl Inner {
    ghost use Rattle.std.specs.Prelude.{◌≡◌, ◌+◌, ◌<◌, ◌^◌, ◌++◌, Some, IfOk, OnOk, true, length, vec_len};
    ghost use Rattle.mach_base.specs.Texts.{newline};
    ghost use Rattle.mach_base.specs.declared.event.Entry.TheVariants.{Line, Off};
    ghost use Rattle.mach_base.specs.declared.event.Ending.TheVariants.{ScriptEnd};
    ghost use Rattle.atom_mach.specs.Texts.{prompt_template};
    ghost use Rattle.atom_mach.specs.Session.{prompt_text};
    ghost use Rattle.plant_mach.specs.Entries.{line_made, may, effect};
    ghost use Rattle.bus_core.specs.Inner.{machine_of, next_line, next_answer, read_on, next_effect, stage_of_go, stage_left, IsDone};

    /// The length of the template of the prompt.
    fn prompt_bytes(&self) -> usize
        ensures length { result ≡ length (prompt_template self.now.kdb.env) }
        ensures short { result < 2 ^ 63 }
    {
        match self.kdb.env.get(b"PROMPT") {
            Some(template) => template.len(),
            None => 0,
        }
    }

    /// Appends the prompt.
    fn push_prompt(&self, out: &mut Vec<u8>) -> Result<(), OutOfMemory>
        ensures { OnOk result (out.new.items ≡ out.old.items ++ prompt_text (machine_of self.now).machine) }
    {
        out.reserve(self.prompt_bytes() + NUMBER_BYTES)?;
        put_prompt(out, &self.kdb.env, self.kdb.current);
        Ok(())
    }

    /// Appends the prompt and the line that is read next.
    fn push_echo(&self, out: &mut Vec<u8>) -> Result<(), OutOfMemory>
        requires { self.now.read < length self.now.script }
        ensures { OnOk result (out.new.items ≡ out.old.items ++ (prompt_text (machine_of self.now).machine ++ (next_line self.now ++ newline))) }
    {
        self.push_prompt(out)?;
        push_bytes(out, self.script.line(self.read))?;
        push_newline(out)?;
        Ok(())
    }

    /// Reads the next line of the open session and runs it. The processors in the session are all but the late ones.
    fn read_line(&mut self, sitting: Sitting) -> Result<Said, OutOfMemory>
        requires left { self.old.read < length self.old.script }
        requires session { self.old.session ≡ Some sitting }
        ensures said { IfOk result (λ said. next_answer self.old sitting ≡ record { output = said.text; state = (machine_of self.new).machine.seen; outcome = said.outcome }) }
        ensures next { OnOk result (machine_of self.new ≡ read_on self.old (machine_of self.new).machine.seen) }
        ensures read { OnOk result (self.new.read ≡ self.old.read + 1) }
        ensures harts { vec_len self.new.contexts ≡ vec_len self.old.contexts }
        ensures limit { self.new.limit ≡ self.old.limit }
    {
        let gathered = all_but(self.harts(), sitting.late);
        match run_line(
            self.alloc,
            &mut self.memory,
            self.contexts.as_mut_slice(),
            &mut self.kdb,
            &self.names,
            gathered,
            sitting.master,
            self.script.line(self.read),
        ) {
            Ok(said) => {
                self.read += 1;
                Ok(said)
            }
            Err(OutOfMemory) => Err(OutOfMemory),
        }
    }

    /// The stage after `go`: a pass where the master would stop at once.
    fn stage_of_go(&self, master: Hart) -> Stage
        requires { master.0 < vec_len self.now.contexts }
        ensures { result ≡ stage_of_go (machine_of self.now).machine master.0 }
    {
        match self.trap(master) {
            Some(Reason::Breakpoint(_)) | Some(Reason::Compiled) => Stage::Pass { again: false },
            _ => Stage::Leaving,
        }
    }

    /// The stage after a line of this outcome.
    fn stage_left(&self, outcome: Outcome, master: Hart) -> Stage
        requires { master.0 < vec_len self.now.contexts }
        ensures { result ≡ stage_left outcome (machine_of self.now).machine master.0 }
    {
        match outcome {
            Outcome::Stay => Stage::Lines,
            Outcome::Go => self.stage_of_go(master),
            Outcome::Step => Stage::Pass { again: true },
        }
    }

    /// Reads and runs the next line of the open session, and appends its prompt, the line and what it prints.
    fn line(&mut self, out: &mut Vec<u8>, sitting: Sitting) -> Result<(), OutOfMemory>
        requires left { self.old.read < length self.old.script }
        requires session { self.old.session ≡ Some sitting }
        ensures text { OnOk result (out.new.items ≡ out.old.items ++ (next_effect self.old sitting).text) }
        ensures next { OnOk result (machine_of self.new ≡ (line_made (machine_of self.old) sitting (next_effect self.old sitting)).next) }
        ensures harts { vec_len self.new.contexts ≡ vec_len self.old.contexts }
        ensures limit { self.new.limit ≡ self.old.limit }
    {
        self.push_echo(out)?;
        let said = self.read_line(sitting)?;
        push_bytes(out, said.text.as_bytes())?;
        let stage = self.stage_left(said.outcome, sitting.master);
        self.session = Some(Sitting { stage, ..sitting });
        Ok(())
    }

    /// The hart reads a line of its session.
    #[tactic(auto, unfolding(plant_mach::specs::Entries::effect))]
    pub fn make_line(&mut self, out: &mut Vec<u8>, hart: Hart) -> Result<(), OutOfMemory>
        requires legal { may (machine_of self.old) (Line hart) ≡ true }
        ensures done { OnOk result (IsDone (machine_of self.old) (Line hart) out.old.items out.new.items (machine_of self.new)) }
        ensures harts { vec_len self.new.contexts ≡ vec_len self.old.contexts }
        ensures limit { self.new.limit ≡ self.old.limit }
    {
        let Some(sitting) = self.session else {
            unreachable!()
        };
        self.line(out, sitting)?;
        Ok(())
    }

    /// The run ends at a prompt that finds no line.
    #[tactic(auto, unfolding(plant_mach::specs::Entries::effect))]
    pub fn make_script_end(&mut self, out: &mut Vec<u8>) -> Result<(), OutOfMemory>
        ensures done { OnOk result (IsDone (machine_of self.old) (Off ScriptEnd) out.old.items out.new.items (machine_of self.new)) }
        ensures harts { vec_len self.new.contexts ≡ vec_len self.old.contexts }
        ensures limit { self.new.limit ≡ self.old.limit }
    {
        out.reserve(self.prompt_bytes() + NUMBER_BYTES)?;
        put_last_prompt(out, &self.kdb.env, self.kdb.current);
        self.ending = Some(Ending::ScriptEnd);
        Ok(())
    }
}
