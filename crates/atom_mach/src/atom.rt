use crate::machine::Core;
use crate::script::Script;
use crate::step::{AStep, Mode, StepFault};
use img_text::{Image, boot};
use kdb_cmd::Kdb;
use mach_base::{Ending, OutOfMemory, Text};
use std::alloc::Global;
use std::marker::Model;
use sym_map::Symbols;

/// The atomic machine, in which a session with no late harts is one step.
#[derive(Drop)]
pub struct Atom {
    core: Core,
}

impl Model for Atom {
    ghost use Rattle.atom_mach.specs.State.{State};
    ghost use Rattle.atom_mach.specs.StateCode.{state_code};
    ghost use Rattle.atom_mach.specs.Core.{state_of};

    ghost Value = { State };

    ghost coded = { state_code };

    ghost view = { λ a. state_of a.core };
}

impl Atom {
    ghost use Rattle.std.specs.Prelude.{◌≡◌, ◌<◌, ◌≤◌, ◌↔◌, Err, Ok, Some, None, IfOk, OnOk, length};
    ghost use Rattle.mach_base.specs.declared.limits.TheConstants.{MOST_HARTS, MOST_STEPS};
    ghost use Rattle.atom_mach.specs.State.{hart_count, start_state};
    ghost use Rattle.atom_mach.specs.Run.{Turns};
    ghost use Rattle.atom_mach.specs.Work.{work_left};
    ghost use Rattle.atom_mach.specs.Step.{does};
    ghost use Rattle.atom_mach.specs.Late.{LateSessionKeeps};
    ghost use Rattle.atom_mach.specs.Limits.{WithinLimits};
    ghost use Rattle.atom_mach.specs.Modes.{Fits, ending_of};
    ghost use Rattle.atom_mach.specs.declared.step.StepFault.TheVariants.{NotNow};

    /// The machine at the start, with this many harts, 1 to 16: memory and contexts from the image, the whole script
    /// unread, at most `limit` steps to make, 1 to 4,000,000.
    #[tactic(auto, unfolding(crate::specs::State::start_state))]
    pub fn start(
        alloc: Global,
        image: &Image,
        names: Symbols,
        script: Script,
        harts: u8,
        limit: u64,
    ) -> Result<Atom, OutOfMemory>
        requires some_harts { 1 ≤ harts }
        requires few_harts { harts ≤ MOST_HARTS }
        requires low { 1 ≤ limit }
        requires high { limit ≤ MOST_STEPS }
        ensures state { IfOk result (λ atom. atom ≡ start_state image.now names script harts limit) }
        ensures limits { IfOk result (λ atom. WithinLimits atom) }
    {
        names.keeps_limits();
        let booted = boot(alloc, image, harts)?;
        booted.map.keeps_limits();
        let kdb = Kdb::new(alloc)?;
        kdb.env.keeps_limits();
        kdb.macros.keeps_limits();
        Ok(Atom {
            core: Core {
                alloc,
                contexts: booted.ctxs,
                map: booted.map,
                kdb,
                names,
                script,
                read: 0,
                limit,
                steps: 0,
                opened: false,
                mode: Mode::Free,
            },
        })
    }

    /// Makes the first step that is allowed of taking the interrupt, opening the session, executing, and ending for
    /// one of the two endings of a free machine; answers what it prints.
    pub fn turn(&mut self) -> Result<Text, OutOfMemory>
        requires one_hart { hart_count self.old.machine ≡ 1 }
        requires running { ending_of self.old.mode ≡ None }
        ensures step { IfOk result (λ text. Turns self.old text self.new) }
        ensures less { OnOk result (work_left self.new < work_left self.old) }
        ensures harts { OnOk result (hart_count self.new.machine ≡ hart_count self.old.machine) }
    {
        let mut out = Vec::new(self.core.alloc);
        self.core.turn(&mut out)?;
        Ok(Text::from_vec(out))
    }

    /// Makes the step and answers what it prints. `NotNow` comes exactly where the step isn't allowed, and then nothing
    /// is changed. After `OutOfMemory` no later step is claimed.
    pub fn step(&mut self, step: AStep) -> Result<Text, StepFault>
        ensures done { IfOk result (λ text. does self.old step ≡ Some (record { text = text; next = self.new })) }
        ensures not_now { (result ≡ Err NotNow) ↔ (does self.old step ≡ None) }
        ensures kept { result ≡ Err NotNow → self.new ≡ self.old }
        ensures fits { Fits (hart_count self.new.machine) self.new.mode }
        ensures harts { OnOk result (hart_count self.new.machine ≡ hart_count self.old.machine) }
        ensures late_sessions { OnOk result (LateSessionKeeps self.old step self.new) }
    {
        let mut out = Vec::new(self.core.alloc);
        match self.core.try_step(&mut out, step) {
            Ok(true) => return Ok(Text::from_vec(out)),
            Ok(false) => return Err(StepFault::NotNow),
            Err(OutOfMemory) => return Err(StepFault::OutOfMemory),
        }
    }

    /// How the run has ended, if it has.
    pub fn over(&self) -> Option<Ending>
        ensures { result ≡ ending_of self.now.mode }
    {
        match self.core.mode {
            Mode::Over(ending) => Some(ending),
            _ => None,
        }
    }

    /// The number of steps so far: executed instructions and interrupts taken.
    pub fn steps(&self) -> u64
        ensures { result ≡ self.now.machine.steps }
    {
        self.core.steps
    }
}
