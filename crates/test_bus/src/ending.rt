//! A bus of one hart whose first step is its end. Its calls are a function of whether it has come to it.
ghost use Rattle.std.specs.Prelude.{◌≡◌, ◌||◌, ⊤, Bool, true, false, None, Some, is_some, refl, if◌then◌else◌};
ghost use Rattle.std.proofs.Common.{rules};
ghost use Rattle.mach_base.specs.declared.event.Ending.TheVariants.{AllHalted};
ghost use Rattle.deck_core.specs.contract.Told.{Told, told_of, IsOpening};
ghost use Rattle.test_bus.specs.declared.quiet.TheConstants.{QUIET};
ghost use Rattle.deck_core.specs.declared.plain.act.Act.{Act};
ghost use Rattle.deck_core.specs.declared.plain.act.Act.TheVariants as act;
ghost use Rattle.deck_core.specs.declared.plain.act.Answer.{Answer};
ghost use Rattle.deck_core.specs.declared.plain.act.Answer.TheVariants as answer;
ghost use Rattle.deck_core.specs.declared.plain.act.Turned.TheVariants as turned;
ghost use Rattle.deck_core.specs.declared.plain.act.Entered.TheVariants as entered;
ghost use Rattle.deck_core.specs.declared.plain.act.Lined.TheVariants as lined;
ghost use Rattle.deck_core.specs.declared.plain.act.Passed.TheVariants as passed;

use crate::quiet::QUIET;
use deck_core::{Bus, Entered, ExactBus, Lined, Notes, Passed, Turned};
use mach_base::{Ending, Hart, Reason};

#[derive(Drop)]
pub struct EndingBus {
    ended: bool,
}

/// A bus on which nothing has happened.
pub fn ending_bus() -> EndingBus
    ensures { IsOpening (⟦<EndingBus as Bus>⟧.told result) }
{
    EndingBus { ended: false }
}

/// What a machine tells, and what its calls answer and make of it, as functions of whether it has ended.
trait Ends {
    ghost told_in: { Bool → Told };

    ghost called: { Act → Bool → Answer × Bool };
}

impl Ends for EndingBus {
    ghost told_in = { λ ended. record (told_of 1 0 QUIET) { over = ended } };

    ghost called = { λ x ended. elim x [
      | act.HartStep h ↦ (answer.HartStep turned.Off, true)
      | act.Check h ↦ (answer.Check None, ended)
      | act.Send h ↦ (answer.Send, ended)
      | act.Pull i ↦ (answer.Pull, ended)
      | act.PlantStep at ↦ (answer.PlantStep, ended)
      | act.PullStep ↦ (answer.PullStep, ended)
      | act.Plant i ↦ (answer.Plant, ended)
      | act.Close h ↦ (answer.Close, ended)
      | act.Enter h late ↦ (answer.Enter entered.Off, ended)
      | act.Line h ↦ (answer.Line lined.Ended, ended)
      | act.PassStep h ↦ (answer.PassStep (passed.Free 0), ended)
    ] };
}

impl Bus for EndingBus {
    ghost told = { λ b. ⟦<EndingBus as Ends>⟧.told_in b.ended };

    ghost SameOrigin = { λ _ _. ⊤ };

    ghost ending = { λ b. if b.ended then Some AllHalted else None };

    ghost is_lost = { λ _. false };

    ghost Does = { λ x b a after. ◌≡◌ {A = Answer × Bool} (a, after.ended) (⟦<EndingBus as Ends>⟧.called x b.ended) };

    ghost over_is = { λ b. elim b.ended as (λ e. e ≡ (is_some (if e then Some AllHalted else None) || false)) [ true ↦ refl | false ↦ refl ] };

    ghost origin_here = { λ _. Prim.search rules };

    ghost origin_on = { λ _ _ _ _ _. Prim.search rules };

    fn hart_step(&mut self, _h: Hart) -> Turned {
        self.ended = true;
        Turned::Off
    }

    fn check(&mut self, _h: Hart) -> Option<Reason> {
        None
    }

    fn send(&mut self, _to: Hart) {}

    fn pull(&mut self, _i: u8) {}

    fn plant_step(&mut self, _at: u64) {}

    fn pull_step(&mut self) {}

    fn plant(&mut self, _i: u8) {}

    fn close(&mut self, _h: Hart) {}

    fn enter(&mut self, _h: Hart, _late: u64) -> Entered {
        Entered::Off
    }

    fn line(&mut self, _h: Hart) -> Lined {
        Lined::Ended
    }

    fn pass_step(&mut self, _h: Hart) -> Passed {
        Passed::Free { enabled: 0 }
    }

    fn harts(&self) -> u8 {
        1
    }

    fn mask(&self) -> u64 {
        0
    }

    fn over(&self) -> Option<Ending> {
        if self.ended {
            Some(Ending::AllHalted)
        } else {
            None
        }
    }

    fn lost(&self) -> bool {
        false
    }

    fn notes(&self) -> Notes {
        let mut notes = QUIET;
        notes.over = self.ended;
        notes
    }
}

impl ExactBus for EndingBus {
    ghost State = { Bool };

    ghost state = { λ b. b.ended };

    ghost told_in = { ⟦<EndingBus as Ends>⟧.told_in };

    ghost called = { ⟦<EndingBus as Ends>⟧.called };

    ghost tells = { λ b kept. refl };

    ghost unlost = { λ x b after a does kept. refl };

    ghost exact = { λ x b after a does kept. does };
}
