//! Entries of a hart by itself: instructions, interrupts and calls.
ghost use Rattle.std.specs.Prelude.{◌≡◌, ◌+◌, ◌≤◌, ◌++◌, option_map, vec_len, vec_capacity};
ghost use Rattle.std.specs.Option.{option_to_list};
ghost use Rattle.plant_mach.specs.Entries.{after_pass, after_step};

use crate::inner::Inner;
use deck_core::{Sitting, Stage};
use hart_step::Did;
use mach_base::Hart;
use trap_ipi::take;

impl Inner {
    ghost use Rattle.std.specs.Prelude.{◌≡◌, ◌+◌, ◌<◌, ◌≤◌, ◌++◌, None, IsTrue, true, false, option_map, slice_set, vec_len, vec_capacity};
    ghost use Rattle.std.specs.Option.{option_to_list};
    ghost use Rattle.mach_base.specs.declared.event.Entry.TheVariants.{Step, Intr, Send, Take};
    ghost use Rattle.trap_ipi.specs.Interrupt.{is_takeable};
    ghost use Rattle.atom_mach.specs.State.{context_at};
    ghost use Rattle.atom_mach.specs.Traps.{fault_of, executed, console_text, interrupted};
    ghost use Rattle.plant_mach.specs.Entries.{after_step, may, effect};
    ghost use Rattle.bus_core.specs.Inner.{machine_of, IsDone};
    ghost use Rattle.bus_core.specs.Seated.{owed};

    /// Executes the hart's instruction. The answer is the byte that goes to the console, if any.
    #[tactic(auto, unfolding(atom_mach::specs::Traps::executed, atom_mach::specs::Traps::fault_of, atom_mach::specs::Traps::console_text))]
    fn execute(&mut self, hart: Hart) -> Option<u8>
        requires hart { hart.0 < vec_len self.old.contexts }
        requires right { fault_of (machine_of self.old).machine hart.0 ≡ None }
        requires room { self.old.steps + 1 + owed (option_map (after_step hart.0) self.old.session) ≤ self.old.limit + self.old.read }
        ensures next { machine_of self.new ≡ record (machine_of self.old) { machine = executed (machine_of self.old).machine hart.0; session = option_map (after_step hart.0) self.old.session } }
        ensures console { option_to_list result ≡ console_text (machine_of self.old).machine hart.0 }
    {
        let pc = self.context(hart).pc;
        let word = match self.memory.fetch(pc) {
            Ok(word) => word,
            Err(_) => unreachable!(),
        };
        self.steps += 1;
        self.session = after_step(hart, self.session);
        match self.memory.exec(self.contexts.as_mut_slice(), hart, word) {
            Did::Done(byte) => byte,
            Did::Fault(_) => unreachable!(),
        }
    }

    /// An instruction of the hart; its console byte goes into room that is there.
    #[tactic(auto, unfolding(plant_mach::specs::Entries::effect))]
    pub fn make_step(&mut self, out: &mut Vec<u8>, hart: Hart)
        requires legal { may (machine_of self.old) (Step hart) ≡ true }
        requires room { vec_len out.old + 1 ≤ vec_capacity out.old }
        ensures done { IsDone (machine_of self.old) (Step hart) out.old.items out.new.items (machine_of self.new) }
        ensures capacity { vec_capacity out.new ≡ vec_capacity out.old }
    {
        let byte = self.execute(hart);
        put_console(out, byte);
    }

    /// The hart takes its interrupt, and a step is counted.
    fn take_interrupt(&mut self, hart: Hart)
        requires hart { hart.0 < vec_len self.old.contexts }
        requires takeable { is_takeable (context_at (machine_of self.old).machine hart.0) ≡ true }
        requires below { self.old.steps < self.old.limit }
        ensures next { machine_of self.new ≡ record (machine_of self.old) { machine = interrupted (machine_of self.old).machine hart.0 } }
    {
        take(&mut self.contexts[usize::from(hart.0)]);
        self.steps += 1;
    }

    /// The hart takes its interrupt.
    #[tactic(auto, unfolding(plant_mach::specs::Entries::effect))]
    pub fn make_interrupt(&mut self, hart: Hart)
        requires legal { may (machine_of self.old) (Intr hart) ≡ true }
        ensures next { machine_of self.new ≡ (effect (machine_of self.old) (Intr hart)).next }
    {
        self.take_interrupt(hart);
    }

    /// Sets whether a call of the hart is pending.
    fn set_call(&mut self, hart: Hart, pending: bool)
        requires { hart.0 < vec_len self.old.contexts }
        ensures { machine_of self.new ≡ record (machine_of self.old) { calls = slice_set self.old.calls.items hart.0 pending } }
    {
        self.calls[usize::from(hart.0)] = pending;
    }

    /// A call of the hart is sent.
    #[tactic(auto, unfolding(plant_mach::specs::Entries::effect), using(crate::proofs::Steps::send_there))]
    pub fn make_send(&mut self, hart: Hart)
        requires legal { may (machine_of self.old) (Send hart) ≡ true }
        ensures next { machine_of self.new ≡ (effect (machine_of self.old) (Send hart)).next }
    {
        self.set_call(hart, true);
    }

    /// The hart takes its call.
    #[tactic(auto, unfolding(plant_mach::specs::Entries::effect), using(crate::proofs::Steps::take_there))]
    pub fn make_take(&mut self, hart: Hart)
        requires legal { may (machine_of self.old) (Take hart) ≡ true }
        ensures next { machine_of self.new ≡ (effect (machine_of self.old) (Take hart)).next }
    {
        self.set_call(hart, false);
    }
}

/// The stage after the step of a pass.
fn after_pass(stage: Stage) -> Stage
    ensures { result ≡ after_pass stage }
{
    match stage {
        Stage::Pass { again: true } => Stage::Back,
        Stage::Pass { again: false } => Stage::Leaving,
        Stage::Lines | Stage::Back | Stage::Leaving => stage,
    }
}

/// The session after an instruction of the hart.
fn after_step(hart: Hart, session: Option<Sitting>) -> Option<Sitting>
    ensures { result ≡ option_map (after_step hart.0) session }
{
    match session {
        Some(sitting) if sitting.master.0 == hart.0 => Some(Sitting {
            stage: after_pass(sitting.stage),
            ..sitting
        }),
        _ => session,
    }
}

/// Appends the byte that an instruction sends to the console, if any, into room that is there.
fn put_console(out: &mut Vec<u8>, byte: Option<u8>)
    requires { vec_len out.old + 1 ≤ vec_capacity out.old }
    ensures text { out.new.items ≡ out.old.items ++ option_to_list byte }
    ensures capacity { vec_capacity out.new ≡ vec_capacity out.old }
{
    if let Some(byte) = byte {
        out.push_reserved(byte);
    }
}
