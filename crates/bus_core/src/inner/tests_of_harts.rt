//! Where the entries of a hart by itself are legal: instructions, interrupts and calls.
ghost use Rattle.std.specs.Prelude.{◌≡◌};
ghost use Rattle.plant_mach.specs.Entries.{is_step_ready};

use crate::inner::Inner;
use deck_core::{Sitting, Stage};
use mach_base::Hart;
use trap_ipi::takeable;

impl Inner {
    ghost use Rattle.std.specs.Prelude.{◌≡◌, ◌<◌, ◌&&◌, vec_len};
    ghost use Rattle.deck_core.specs.contract.Allowed.{in_session, is_of, is_pass};
    ghost use Rattle.mach_base.specs.declared.event.Entry.TheVariants.{Step, Intr, Send, Take};
    ghost use Rattle.plant_mach.specs.Entries.{may_run, may_pass, is_called, may};
    ghost use Rattle.bus_core.specs.Inner.{machine_of};

    /// Whether the hart, which owes no step, may execute.
    fn may_run(&self, hart: Hart) -> bool
        requires { hart.0 < vec_len self.now.contexts }
        ensures { result ≡ may_run (machine_of self.now) hart.0 }
    {
        !self.is_held(hart)
            && self.has_steps()
            && !takeable(self.context(hart))
            && !self.meets_ebreak(hart)
            && !self.faults(hart)
    }

    /// Whether the hart owes a step: the open session is its own, in a single-step pass.
    fn owes(&self, hart: Hart) -> bool
        ensures { result ≡ in_session (λ s. is_of hart.0 s && is_pass s.stage) self.now.session }
    {
        match self.session {
            Some(
                Sitting {
                    master,
                    stage: Stage::Pass { .. },
                    ..
                },
            ) => master.0 == hart.0,
            _ => false,
        }
    }

    /// Whether the hart may make the step that it owes.
    fn may_pass(&self, hart: Hart) -> bool
        requires { hart.0 < vec_len self.now.contexts }
        ensures { result ≡ may_pass (machine_of self.now) hart.0 }
    {
        self.owes(hart)
            && !self.faults(hart)
            && is_step_ready(self.step_address(hart), self.memory.step_word())
    }

    /// Whether the hart may execute an instruction.
    #[tactic(auto, unfolding(plant_mach::specs::Entries::may))]
    pub fn may_step(&self, hart: Hart) -> bool
        ensures { result ≡ may (machine_of self.now) (Step hart) }
    {
        self.has(hart)
            && self.opened
            && !self.context(hart).halted
            && (self.may_run(hart) || self.may_pass(hart))
    }

    /// Whether the hart may take its interrupt.
    #[tactic(auto, unfolding(plant_mach::specs::Entries::may))]
    pub fn may_interrupt(&self, hart: Hart) -> bool
        ensures { result ≡ may (machine_of self.now) (Intr hart) }
    {
        self.has(hart)
            && self.opened
            && !self.is_held(hart)
            && takeable(self.context(hart))
            && self.has_steps()
    }

    /// Whether the hart may be called.
    #[tactic(auto, unfolding(plant_mach::specs::Entries::may))]
    pub fn may_send(&self, hart: Hart) -> bool
        ensures { result ≡ may (machine_of self.now) (Send hart) }
    {
        self.has(hart) && self.session.is_none()
    }

    /// Whether a call of the hart is pending.
    fn is_called(&self, hart: Hart) -> bool
        requires { hart.0 < vec_len self.now.contexts }
        ensures { result ≡ is_called (machine_of self.now) hart.0 }
    {
        self.calls[usize::from(hart.0)]
    }

    /// Whether the hart may take its call.
    #[tactic(auto, unfolding(plant_mach::specs::Entries::may))]
    pub fn may_take(&self, hart: Hart) -> bool
        ensures { result ≡ may (machine_of self.now) (Take hart) }
    {
        self.has(hart)
            && self.is_called(hart)
            && (!self.context(hart).masked || self.context(hart).halted)
            && !self.is_held(hart)
    }
}

/// Whether the step word stands exactly where it is to stand.
fn is_step_ready(wanted: Option<u64>, step: Option<u64>) -> bool
    ensures { result ≡ is_step_ready wanted step }
{
    match step {
        None => wanted.is_none(),
        Some(_) => wanted.is_some(),
    }
}
