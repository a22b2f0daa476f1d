//! A bus over plain numbers: two harts, and a script of four lines. The first enables a breakpoint place, the second asks
//! for a single-step pass, the third and the fourth leave the session; hart 0 has a trap again after the third.
ghost use Rattle.std.specs.Prelude.{◌≡◌, ◌<◌, ◌≤◌, ◌^◌, ◌||◌, ⊤, is_some, refl, false, suc};
ghost use Rattle.std.proofs.Common.{rules};
ghost use Rattle.deck_core.specs.contract.Told.{told_of, IsOpening};

use crate::quiet::QUIET;
use deck_core::{Bus, Entered, Lined, Notes, Passed, Sitting, Stage, Turned};
use mach_base::{Ending, Hart, Reason, all_but, has_bit, mask_with, mask_without};

/// The address that a single-step pass plants.
pub const STEP: u64 = 0x1004;

#[derive(Drop)]
pub struct SmallBus {
    pub mask: u64,
    pub notes: Notes,
    /// Whether hart 1 has a pending call.
    pub called: bool,
    pub ended: Option<Ending>,
    ghost stopped: { mask < 2 ^ 2 },
    ghost planted_places: { notes.planted < 2 ^ 16 },
    ghost enabled_places: { notes.enabled < 2 ^ 16 },
    ghost read_lines: { notes.lines ≤ 4096 },
}

/// A bus on which nothing has happened; these harts have a trap.
pub fn small_bus(traps: u64) -> SmallBus
    ensures opening { IsOpening (⟦<SmallBus as Bus>⟧.told result) }
    ensures two { (⟦<SmallBus as Bus>⟧.told result).harts ≡ 2 }
{
    let mut notes = QUIET;
    notes.traps = traps;
    SmallBus {
        mask: 0,
        notes,
        called: false,
        ended: None,
    }
}

impl Bus for SmallBus {
    ghost told = { λ b. record (told_of 2 b.mask b.notes) { over = is_some b.ended || false } };

    ghost SameOrigin = { λ _ _. ⊤ };

    ghost ending = { λ b. b.ended };

    ghost is_lost = { λ _. false };

    ghost over_is = { λ _. refl };

    ghost origin_here = { λ _. Prim.search rules };

    ghost origin_on = { λ _ _ _ _ _. Prim.search rules };

    fn hart_step(&mut self, h: Hart) -> Turned {
        if self.ended.is_some() {
            Turned::Off
        } else if h.0 == 1 && self.called {
            self.called = false;
            Turned::Called
        } else if has_bit(self.notes.traps, h.0) {
            Turned::Trapped
        } else if self.notes.lines == 4 {
            self.ended = Some(Ending::StepLimit);
            Turned::Off
        } else {
            Turned::Stepped
        }
    }

    fn check(&mut self, h: Hart) -> Option<Reason> {
        if self.ended.is_none() && has_bit(self.notes.traps, h.0) {
            Some(Reason::Start)
        } else {
            None
        }
    }

    fn send(&mut self, _to: Hart) {
        if self.ended.is_none() {
            self.notes.sends += 1;
            self.called = true;
        }
    }

    fn pull(&mut self, i: u8) {
        if self.ended.is_none() {
            self.notes.planted = mask_without(self.notes.planted, i);
        }
    }

    fn plant_step(&mut self, at: u64) {
        if self.ended.is_none() {
            self.notes.step = Some(at);
            self.notes.stepped = true;
        }
    }

    fn pull_step(&mut self) {
        if self.ended.is_none() {
            self.notes.step = None;
        }
    }

    fn plant(&mut self, i: u8) {
        if self.ended.is_none() {
            self.notes.planted = mask_with(self.notes.planted, i);
        }
    }

    fn close(&mut self, _h: Hart) {
        self.mask = 0;
        if self.ended.is_none() {
            self.notes.session = None;
            self.notes.next = None;
            self.notes.plantable = false;
        }
    }

    fn enter(&mut self, h: Hart, late: u64) -> Entered {
        if self.ended.is_some() {
            return Entered::Off;
        }
        if self.notes.session.is_none() {
            self.mask = all_but(2, late);
        }
        self.notes.session = Some(Sitting {
            master: h,
            late,
            stage: Stage::Lines,
        });
        self.notes.traps = 0;
        Entered::Inside {
            planted: self.notes.planted,
        }
    }

    fn line(&mut self, _h: Hart) -> Lined {
        if self.ended.is_some() {
            return Lined::Ended;
        }
        match (self.notes.session, self.notes.lines) {
            (Some(sitting), 0) => {
                self.notes.enabled = 8;
                read_line(&mut self.notes, sitting, Stage::Lines);
                Lined::Stay
            }
            (Some(sitting), 1) => {
                self.notes.next = Some(STEP);
                self.notes.plantable = true;
                read_line(&mut self.notes, sitting, Stage::Pass { again: true });
                Lined::Pass {
                    at: Some(STEP),
                    again: true,
                }
            }
            (Some(sitting), 2) => {
                self.notes.traps = 1;
                read_line(&mut self.notes, sitting, Stage::Leaving);
                Lined::Free {
                    enabled: self.notes.enabled,
                }
            }
            (Some(sitting), 3) => {
                read_line(&mut self.notes, sitting, Stage::Leaving);
                Lined::Free {
                    enabled: self.notes.enabled,
                }
            }
            _ => {
                self.ended = Some(Ending::ScriptEnd);
                Lined::Ended
            }
        }
    }

    fn pass_step(&mut self, h: Hart) -> Passed {
        if self.ended.is_some() {
            return Passed::Free { enabled: 0 };
        }
        if has_bit(self.notes.faults, h.0) {
            return Passed::Faulted;
        }
        match self.notes.session {
            Some(
                Sitting {
                    master,
                    late,
                    stage: Stage::Pass { again: true },
                },
            ) => {
                self.notes.session = Some(Sitting {
                    master,
                    late,
                    stage: Stage::Back,
                });
                Passed::Back
            }
            Some(
                Sitting {
                    master,
                    late,
                    stage: _,
                },
            ) => {
                self.notes.session = Some(Sitting {
                    master,
                    late,
                    stage: Stage::Leaving,
                });
                Passed::Free {
                    enabled: self.notes.enabled,
                }
            }
            None => Passed::Free {
                enabled: self.notes.enabled,
            },
        }
    }

    fn harts(&self) -> u8 {
        2
    }

    fn mask(&self) -> u64 {
        self.mask
    }

    fn over(&self) -> Option<Ending> {
        self.ended
    }

    fn lost(&self) -> bool {
        false
    }

    fn notes(&self) -> Notes {
        let mut notes = self.notes;
        notes.over = self.ended.is_some();
        notes
    }
}

fn read_line(notes: &mut Notes, sitting: Sitting, stage: Stage)
    requires { notes.old.lines < 4 }
    ensures { notes.new ≡ record notes.old { session = Some (record sitting { stage = stage }); lines = suc notes.old.lines; stepped = false } }
{
    notes.session = Some(Sitting {
        master: sitting.master,
        late: sitting.late,
        stage,
    });
    notes.lines += 1;
    notes.stepped = false;
}
