//! The machine from the inside, and what may happen in it; its parts are in the folder `machine`.
ghost use Rattle.std.specs.Prelude.{◌≡◌, ◌+◌, ◌<◌, ◌≤◌, length, vec_len};
ghost use Rattle.mach_base.specs.declared.limits.TheConstants.{MOST_HARTS, MOST_LINES, MOST_STEPS};
ghost use Rattle.atom_mach.specs.Modes.{owed, Fits, IsGathered};
ghost use Rattle.atom_mach.specs.ModeFacts.{Fits-prop, IsGathered-prop};

mod endings;
mod lines;
mod moves;
mod sessions;
mod turns;

use crate::script::Script;
use crate::step::Mode;
use crate::traps::{fault_of_fetched, late_trap_of, trap_of};
use hart_ctx::Context;
use kdb_cmd::Kdb;
use mach_base::{Fault, Hart, Reason, has_bit};
use mem_map::Map;
use std::alloc::Global;
use sym_map::Symbols;
use trap_ipi::takeable;

/// The machine from the inside.
#[derive(Drop)]
pub struct Core {
    pub alloc: Global,
    /// One for each hart, 1 to 16.
    pub contexts: Vec<Context>,
    pub map: Map,
    pub kdb: Kdb,
    pub names: Symbols,
    pub script: Script,
    /// How many lines of the script were read.
    pub read: usize,
    pub limit: u64,
    pub steps: u64,
    pub opened: bool,
    pub mode: Mode,
    ghost some_harts: { 1 ≤ vec_len contexts },
    ghost few_harts: { vec_len contexts ≤ MOST_HARTS },
    ghost in_range: { read ≤ length script },
    ghost few_lines: { length script ≤ MOST_LINES },
    ghost few_steps: { limit ≤ MOST_STEPS },
    ghost bounded: { steps + owed mode ≤ limit + read },
    ghost owed_lines: { owed mode ≤ read },
    ghost fits: { Fits (vec_len contexts) mode } by { Fits-prop (vec_len contexts) mode },
    ghost current: { kdb.current < vec_len contexts },
    ghost gathered: { IsGathered mode kdb.current } by { IsGathered-prop mode kdb.current },
}

impl Core {
    ghost use Rattle.std.specs.Prelude.{◌≡◌, ◌+◌, ◌<◌, ◌≤◌, ◌^◌, length, vec_len};
    ghost use Rattle.hart_ctx.specs.Context.{context_of};
    ghost use Rattle.trap_ipi.specs.Interrupt.{is_takeable};
    ghost use Rattle.atom_mach.specs.State.{context_at};
    ghost use Rattle.atom_mach.specs.Modes.{runs, owes, owed, Fits, IsGathered};
    ghost use Rattle.atom_mach.specs.Traps.{fault_of, late_trap, trap};
    ghost use Rattle.atom_mach.specs.Session.{is_hart, opening_reason};
    ghost use Rattle.atom_mach.specs.Step.{trap_in, may_run, may_pass, may_take};
    ghost use Rattle.atom_mach.specs.Core.{machine_of, state_of};

    /// The number of harts.
    pub fn harts(&self) -> u8
        ensures number { result ≡ length self.now.contexts.items }
        ensures few { result ≤ MOST_HARTS }
    {
        self.contexts.len() as u8
    }

    /// Whether the hart is one of the machine's.
    pub fn has(&self, hart: Hart) -> bool
        ensures { result ≡ is_hart (machine_of self.now) hart.0 }
    {
        hart.0 < self.harts()
    }

    /// The context of a hart.
    pub fn context(&self, hart: Hart) -> &Context
        requires { hart.0 < vec_len self.now.contexts }
        ensures { result.now ≡ context_at (machine_of self.now) hart.0 }
    {
        &self.contexts[usize::from(hart.0)]
    }

    /// The fault of the hart's instruction.
    #[tactic(auto, unfolding(crate::specs::Traps::fault_of))]
    pub fn fault(&self, hart: Hart) -> Option<Fault>
        requires { hart.0 < vec_len self.now.contexts }
        ensures { result ≡ fault_of (machine_of self.now) hart.0 }
    {
        let context = self.context(hart);
        fault_of_fetched(context, self.harts(), &self.map, self.map.fetch(context.pc))
    }

    /// The trap of a hart for which breakpoints don't count.
    #[tactic(auto, unfolding(crate::specs::Traps::late_trap))]
    fn late_trap(&self, hart: Hart) -> Option<Reason>
        requires { hart.0 < vec_len self.now.contexts }
        ensures { result ≡ late_trap (machine_of self.now) hart.0 }
    {
        let context = self.context(hart);
        let fetched = self.map.fetch(context.pc);
        late_trap_of(self.opened, hart, context, self.harts(), &self.map, fetched)
    }

    /// The hart's trap.
    #[tactic(auto, unfolding(crate::specs::Traps::trap))]
    pub fn trap(&self, hart: Hart) -> Option<Reason>
        requires { hart.0 < vec_len self.now.contexts }
        ensures { result ≡ trap (machine_of self.now) hart.0 }
    {
        let context = self.context(hart);
        let fetched = self.map.fetch(context.pc);
        trap_of(
            self.opened,
            &self.kdb.breaks,
            hart,
            context,
            self.harts(),
            &self.map,
            fetched,
        )
    }

    /// The trap that keeps the hart from executing.
    fn trap_now(&self, hart: Hart) -> Option<Reason>
        requires { hart.0 < vec_len self.now.contexts }
        ensures { result ≡ trap_in self.now.mode (machine_of self.now) hart.0 }
    {
        match self.mode {
            Mode::Free => self.trap(hart),
            Mode::Hold { .. }
            | Mode::Pass { .. }
            | Mode::Back { .. }
            | Mode::Leave { .. }
            | Mode::Over(_) => self.late_trap(hart),
        }
    }

    fn is_takeable(&self, hart: Hart) -> bool
        requires { hart.0 < vec_len self.now.contexts }
        ensures { result ≡ is_takeable (context_at (machine_of self.now) hart.0) }
    {
        takeable(self.context(hart))
    }

    /// Whether the hart runs: in the free machine once a session was opened, and beside a session where it is late.
    fn runs(&self, hart: Hart) -> bool
        requires { hart.0 < vec_len self.now.contexts }
        ensures { result ≡ runs self.now.mode self.now.opened hart.0 }
    {
        match self.mode {
            Mode::Free => self.opened,
            Mode::Hold { late, .. }
            | Mode::Pass { late, .. }
            | Mode::Back { late, .. }
            | Mode::Leave { late, .. } => has_bit(late, hart.0),
            Mode::Over(_) => false,
        }
    }

    /// Whether the hart may take its interrupt.
    pub fn may_take(&self, hart: Hart) -> bool
        requires { hart.0 < vec_len self.now.contexts }
        ensures { result ≡ may_take (state_of self.now) hart.0 }
    {
        self.runs(hart) && self.is_takeable(hart) && self.steps < self.limit
    }

    /// Whether the hart may execute as one that runs.
    pub fn may_run(&self, hart: Hart) -> bool
        requires { hart.0 < vec_len self.now.contexts }
        ensures { result ≡ may_run (state_of self.now) hart.0 }
    {
        self.runs(hart)
            && !self.context(hart).halted
            && !self.is_takeable(hart)
            && self.steps < self.limit
            && self.trap_now(hart).is_none()
    }

    /// Whether the hart owes an instruction.
    fn owes(&self, hart: Hart) -> bool
        ensures { result ≡ owes self.now.mode hart.0 }
    {
        match self.mode {
            Mode::Pass { master, .. } => master.0 == hart.0,
            Mode::Free
            | Mode::Hold { .. }
            | Mode::Back { .. }
            | Mode::Leave { .. }
            | Mode::Over(_) => { false }
        }
    }

    /// Whether the hart may execute the instruction that it owes.
    pub fn may_pass(&self, hart: Hart) -> bool
        requires { hart.0 < vec_len self.now.contexts }
        ensures { result ≡ may_pass (state_of self.now) hart.0 }
    {
        self.owes(hart) && self.fault(hart).is_none()
    }

    /// The reason for which the hart may open a session with these late harts.
    pub fn opening_reason(&self, hart: Hart, late: u64) -> Option<Reason>
        requires { hart.0 < vec_len self.now.contexts }
        ensures { result ≡ opening_reason self.now.mode (machine_of self.now) hart.0 late }
    {
        match self.mode {
            Mode::Free => self.trap(hart),
            Mode::Back {
                master,
                late: was_late,
            } => {
                if master.0 == hart.0 && was_late == late {
                    Some(Reason::Step)
                } else {
                    None
                }
            }
            Mode::Pass {
                master,
                late: was_late,
                ..
            } => {
                if master.0 == hart.0 && was_late == late {
                    self.fault(hart).map(Reason::Fault)
                } else {
                    None
                }
            }
            Mode::Hold { .. } | Mode::Leave { .. } | Mode::Over(_) => None,
        }
    }
}
