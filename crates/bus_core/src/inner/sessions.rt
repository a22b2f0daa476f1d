//! Entries that open and close a session, and that end the run.

use crate::inner::Inner;
use atom_mach::put_banner;
use deck_core::{Sitting, Stage};
use mach_base::{Ending, Hart, Reason};

impl Inner {
    ghost use Rattle.std.specs.Prelude.{◌≡◌, ◌+◌, ◌<◌, ◌≤◌, ◌++◌, Some, true, vec_len, vec_capacity};
    ghost use Rattle.mach_base.specs.declared.event.Entry.TheVariants.{Open, Close, Off};
    ghost use Rattle.atom_mach.specs.declared.texts.TheConstants.{BANNER_BYTES};
    ghost use Rattle.atom_mach.specs.Modes.{IsSitting};
    ghost use Rattle.plant_mach.specs.Entries.{opened_for, may, effect};
    ghost use Rattle.bus_core.specs.Inner.{machine_of, IsDone};

    /// A session of the hart opens for this reason: its banner goes into room that is there.
    fn open(&mut self, out: &mut Vec<u8>, master: Hart, late: u64, reason: Reason)
        requires sitting { IsSitting (vec_len self.old.contexts) master late }
        requires room { vec_len out.old + BANNER_BYTES ≤ vec_capacity out.old }
        ensures text { out.new.items ≡ out.old.items ++ (opened_for (machine_of self.old) master late (Some reason)).text }
        ensures next { machine_of self.new ≡ (opened_for (machine_of self.old) master late (Some reason)).next }
        ensures capacity { vec_capacity out.new ≡ vec_capacity out.old }
    {
        let pc = self.context(master).pc;
        put_banner(out, late, master, reason, pc);
        self.kdb.current = master.0;
        self.opened = true;
        self.session = Some(Sitting {
            master,
            late,
            stage: Stage::Lines,
        });
    }

    /// The hart opens a session with these late harts: its banner goes into room that is there.
    #[tactic(auto, unfolding(plant_mach::specs::Entries::effect))]
    pub fn make_open(&mut self, out: &mut Vec<u8>, master: Hart, late: u64)
        requires legal { may (machine_of self.old) (Open master late) ≡ true }
        requires room { vec_len out.old + BANNER_BYTES ≤ vec_capacity out.old }
        ensures done { IsDone (machine_of self.old) (Open master late) out.old.items out.new.items (machine_of self.new) }
        ensures capacity { vec_capacity out.new ≡ vec_capacity out.old }
    {
        match self.reason_now(master, late) {
            Some(reason) => self.open(out, master, late, reason),
            None => unreachable!(),
        }
    }

    /// The session closes.
    #[tactic(auto, unfolding(plant_mach::specs::Entries::effect))]
    pub fn make_close(&mut self, hart: Hart)
        ensures next { machine_of self.new ≡ (effect (machine_of self.old) (Close hart)).next }
    {
        let _ = hart;
        self.session = None;
    }

    /// The run ends.
    #[tactic(auto, unfolding(plant_mach::specs::Entries::effect))]
    pub fn make_end(&mut self, ending: Ending)
        ensures next { machine_of self.new ≡ (effect (machine_of self.old) (Off ending)).next }
    {
        self.ending = Some(ending);
    }
}
