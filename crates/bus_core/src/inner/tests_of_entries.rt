//! Where the entries of a session are legal, and where any entry is.
ghost use Rattle.std.specs.Prelude.{◌≡◌};
ghost use Rattle.deck_core.specs.contract.Allowed.{is_lines, is_pass, is_leaving, is_address};

use crate::inner::Inner;
use deck_core::Stage;
use mach_base::{Ending, Entry, Hart, Reason, has_bit};

impl Inner {
    ghost use Rattle.std.specs.Prelude.{◌≡◌, ◌<◌, ◌&&◌, vec_len};
    ghost use Rattle.deck_core.specs.contract.Allowed.{in_session, is_of, is_lines, is_pass, is_leaving, is_address};
    ghost use Rattle.mach_base.specs.declared.event.Entry.TheVariants.{Open, Pull, Line, PlantStep, PullStep, Plant, Close, Off};
    ghost use Rattle.plant_mach.specs.Entries.{can_sit, reason_again, reason_now, step_address, may_pull_step, may_end, may};
    ghost use Rattle.bus_core.specs.Inner.{machine_of, is_legal};

    /// Whether the harts can be the master and the late ones of a session.
    fn can_sit(&self, master: Hart, late: u64) -> bool
        ensures { result ≡ can_sit (machine_of self.now).machine master.0 late }
    {
        self.has(master) && late < self.mask_limit() && !has_bit(late, master.0)
    }

    /// Why a session of the hart opens again at this stage, if it does.
    fn reason_again(&self, master: Hart, stage: Stage) -> Option<Reason>
        requires { master.0 < vec_len self.now.contexts }
        ensures { result ≡ reason_again (machine_of self.now).machine master.0 stage }
    {
        match stage {
            Stage::Back => Some(Reason::Step),
            Stage::Pass { .. } => self.fault(master).map(Reason::Fault),
            Stage::Lines | Stage::Leaving => None,
        }
    }

    /// Why the hart may open a session with these late harts now, if it may.
    pub fn reason_now(&self, master: Hart, late: u64) -> Option<Reason>
        requires { master.0 < vec_len self.now.contexts }
        ensures { result ≡ reason_now (machine_of self.now) master.0 late }
    {
        match self.session {
            None => self.trap(master),
            Some(sitting) => {
                if sitting.master.0 == master.0
                    && sitting.late == late
                    && self.memory.step_word().is_none()
                {
                    self.reason_again(master, sitting.stage)
                } else {
                    None
                }
            }
        }
    }

    /// Whether the hart may open a session with these late harts.
    #[tactic(auto, unfolding(plant_mach::specs::Entries::may))]
    fn may_open(&self, master: Hart, late: u64) -> bool
        ensures { result ≡ may (machine_of self.now) (Open master late) }
    {
        self.can_sit(master, late) && self.reason_now(master, late).is_some()
    }

    /// Whether lines are read in a session.
    fn in_lines(&self) -> bool
        ensures { result ≡ in_session (λ s. is_lines s.stage) self.now.session }
    {
        match self.session {
            Some(sitting) => is_lines(sitting.stage),
            None => false,
        }
    }

    /// Whether lines are read in a session of the hart.
    fn in_own_lines(&self, hart: Hart) -> bool
        ensures { result ≡ in_session (λ s. is_of hart.0 s && is_lines s.stage) self.now.session }
    {
        match self.session {
            Some(sitting) => sitting.master.0 == hart.0 && is_lines(sitting.stage),
            None => false,
        }
    }

    /// Whether a session is being left.
    fn is_left(&self) -> bool
        ensures { result ≡ in_session (λ s. is_leaving s.stage) self.now.session }
    {
        match self.session {
            Some(sitting) => is_leaving(sitting.stage),
            None => false,
        }
    }

    /// Whether a session of the hart is being left.
    fn is_left_by(&self, hart: Hart) -> bool
        ensures { result ≡ in_session (λ s. is_of hart.0 s && is_leaving s.stage) self.now.session }
    {
        match self.session {
            Some(sitting) => sitting.master.0 == hart.0 && is_leaving(sitting.stage),
            None => false,
        }
    }

    /// Whether the place may be pulled.
    #[tactic(auto, unfolding(plant_mach::specs::Entries::may))]
    fn may_pull(&self, place: u8) -> bool
        ensures { result ≡ may (machine_of self.now) (Pull place) }
    {
        self.in_lines() && self.memory.planted_at(place).is_some()
    }

    /// Whether the hart may read a line.
    #[tactic(auto, unfolding(plant_mach::specs::Entries::may))]
    fn may_line(&self, hart: Hart) -> bool
        ensures { result ≡ may (machine_of self.now) (Line hart) }
    {
        self.in_own_lines(hart) && self.memory.planted() == 0 && self.has_line()
    }

    /// Whether the step word belongs at the address.
    fn belongs_at(&self, addr: u64) -> bool
        ensures { result ≡ in_session (λ s. is_pass s.stage && is_address addr (step_address (machine_of self.now).machine s.master.0)) self.now.session }
    {
        match self.session {
            Some(sitting) => {
                is_pass(sitting.stage) && is_address(addr, self.step_address(sitting.master))
            }
            None => false,
        }
    }

    /// Whether the step word may be planted at the address.
    #[tactic(auto, unfolding(plant_mach::specs::Entries::may))]
    fn may_plant_step(&self, addr: u64) -> bool
        ensures { result ≡ may (machine_of self.now) (PlantStep addr) }
    {
        self.belongs_at(addr) && self.memory.step_word().is_none()
    }

    /// Whether the open session needs the step word no more: the step was made, or can't be made.
    fn is_step_over(&self) -> bool
        ensures { result ≡ in_session (may_pull_step (machine_of self.now)) self.now.session }
    {
        match self.session {
            Some(sitting) => !is_pass(sitting.stage) || self.faults(sitting.master),
            None => false,
        }
    }

    /// Whether the step word may be pulled.
    #[tactic(auto, unfolding(plant_mach::specs::Entries::may))]
    fn may_pull_step(&self) -> bool
        ensures { result ≡ may (machine_of self.now) PullStep }
    {
        self.memory.step_word().is_some() && self.is_step_over()
    }

    /// Whether the place may be planted.
    #[tactic(auto, unfolding(plant_mach::specs::Entries::may))]
    fn may_plant(&self, place: u8) -> bool
        ensures { result ≡ may (machine_of self.now) (Plant place) }
    {
        self.is_left()
            && self.memory.step_word().is_none()
            && self.enabled_at(place).is_some()
            && self.memory.planted_at(place).is_none()
    }

    /// Whether the hart may close its session.
    #[tactic(auto, unfolding(plant_mach::specs::Entries::may))]
    fn may_close(&self, hart: Hart) -> bool
        ensures { result ≡ may (machine_of self.now) (Close hart) }
    {
        self.is_left_by(hart)
            && self.memory.step_word().is_none()
            && self.memory.planted() == self.enabled()
    }

    /// Whether the run may end so.
    fn may_end(&self, ending: Ending) -> bool
        ensures { result ≡ may_end (machine_of self.now) ending }
    {
        match ending {
            Ending::ScriptEnd => {
                self.in_lines() && self.memory.planted() == 0 && !self.has_line()
            }
            Ending::AllHalted => self.session.is_none() && self.all_halted(),
            Ending::StepLimit => {
                self.session.is_none() && (!self.all_halted() && self.steps >= self.limit)
            }
            Ending::PlanEnd => false,
        }
    }

    /// Whether the entry is legal, while the run hasn't ended.
    #[tactic(auto, unfolding(plant_mach::specs::Entries::may))]
    fn may(&self, entry: Entry) -> bool
        ensures { result ≡ may (machine_of self.now) entry }
    {
        match entry {
            Entry::Step(hart) => self.may_step(hart),
            Entry::Intr(hart) => self.may_interrupt(hart),
            Entry::Send(hart) => self.may_send(hart),
            Entry::Take(hart) => self.may_take(hart),
            Entry::Open(master, late) => self.may_open(master, late),
            Entry::Pull(place) => self.may_pull(place),
            Entry::Line(hart) => self.may_line(hart),
            Entry::PlantStep(addr) => self.may_plant_step(addr),
            Entry::PullStep => self.may_pull_step(),
            Entry::Plant(place) => self.may_plant(place),
            Entry::Close(hart) => self.may_close(hart),
            Entry::Off(ending) => self.may_end(ending),
        }
    }

    /// Whether the entry is legal.
    pub fn legal(&self, entry: Entry) -> bool
        ensures { result ≡ is_legal (machine_of self.now) entry }
    {
        self.ending.is_none() && self.may(entry)
    }
}

fn is_lines(stage: Stage) -> bool
    ensures { result ≡ is_lines stage }
{
    matches!(stage, Stage::Lines)
}

fn is_pass(stage: Stage) -> bool
    ensures { result ≡ is_pass stage }
{
    matches!(stage, Stage::Pass { .. })
}

fn is_leaving(stage: Stage) -> bool
    ensures { result ≡ is_leaving stage }
{
    matches!(stage, Stage::Leaving)
}

/// Whether the address is this one.
fn is_address(addr: u64, found: Option<u64>) -> bool
    ensures { result ≡ is_address addr found }
{
    match found {
        Some(address) => address == addr,
        None => false,
    }
}
