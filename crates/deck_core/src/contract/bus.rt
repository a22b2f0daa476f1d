//! The value behind the turn, as the protocol sees it.
ghost use Rattle.std.specs.Prelude.{◌≡◌, ◌||◌, ⊤, Option, Bool, IsTrue, is_some};
ghost use Rattle.mach_base.specs.declared.event.Ending.{Ending};
ghost use Rattle.deck_core.specs.contract.Told.{Told, IsTold, told_of};
ghost use Rattle.deck_core.specs.contract.Allowed.{is_allowed};
ghost use Rattle.deck_core.specs.contract.Calls.{HartStepGives, CheckGives, EnterGives, LineGives, PassGives, CloseGives, Changes, sent, pulled, replanted, step_planted, step_pulled, StaysEnded};
ghost use Rattle.deck_core.specs.declared.plain.act.Act.{Act};
ghost use Rattle.deck_core.specs.declared.plain.act.Answer.{Answer};

use crate::{Act, Answer, Entered, Lined, Notes, Passed, Turned};
use mach_base::{Ending, Hart, Reason};

/// A machine that one hart at a time may change. A call is allowed where its event is legal, or where an ending stands;
/// then it changes nothing but what its clause says.
pub trait Bus: Drop {
    /// What it tells of itself.
    ghost told: { Self → Told };

    /// That a bus is what became of another by calls: it has what no call changes.
    ghost SameOrigin: { Self → Self → Type 0 };

    /// The ending that stands, if any.
    ghost ending: { Self → Option Ending };

    /// Whether a line ran out of memory.
    ghost is_lost: { Self → Bool };

    /// That a call with this answer makes one bus of another. A bus that says nothing here may do all that its clauses
    /// allow.
    ghost Does: { Act → Self → Answer → Self → Type 0 } = { λ _ _ _ _. ⊤ };

    /// Does what the hart does outside a session: the first of these that holds. `Off` where an ending stands, or the
    /// machine has come to its end, which it then writes down; `Called` where it takes a pending call; `Idle` where it is
    /// halted, may not start yet or is at the limit of steps; `Trapped` where it is to open the first session; `Took`
    /// where it takes its interrupt; `Trapped` where it has a trap; else `Stepped`, and it executes one instruction.
    fn hart_step(&mut self, h: Hart) -> Turned
        requires { IsTrue (is_allowed (Act.HartStep h) (told self.old)) }
        ensures gives { HartStepGives h.0 (told self.old) result (told self.new) }
        ensures fits { IsTold (told self.new) }
        ensures ended { StaysEnded (Answer.HartStep result) (ending self.old) (is_lost self.old) (ending self.new) (is_lost self.new) }
        ensures does { Does (Act.HartStep h) self.old (Answer.HartStep result) self.new }
        ensures origin { SameOrigin self.old self.new };

    /// The trap of the hart on the machine's true memory; None where it has none, or an ending stands.
    fn check(&mut self, h: Hart) -> Option<Reason>
        requires { IsTrue (is_allowed (Act.Check h) (told self.old)) }
        ensures gives { CheckGives h.0 (told self.old) result (told self.new) }
        ensures fits { IsTold (told self.new) }
        ensures ended { StaysEnded (Answer.Check result) (ending self.old) (is_lost self.old) (ending self.new) (is_lost self.new) }
        ensures does { Does (Act.Check h) self.old (Answer.Check result) self.new }
        ensures origin { SameOrigin self.old self.new };

    /// Calls another hart.
    fn send(&mut self, to: Hart)
        requires { IsTrue (is_allowed (Act.Send to) (told self.old)) }
        ensures gives { Changes (told self.old) (told self.new) (sent (told self.old)) }
        ensures fits { IsTold (told self.new) }
        ensures ended { StaysEnded Answer.Send (ending self.old) (is_lost self.old) (ending self.new) (is_lost self.new) }
        ensures does { Does (Act.Send to) self.old Answer.Send self.new }
        ensures origin { SameOrigin self.old self.new };

    /// Takes the planted word of a place, from 0 to 15, out.
    fn pull(&mut self, i: u8)
        requires { IsTrue (is_allowed (Act.Pull i) (told self.old)) }
        ensures gives { Changes (told self.old) (told self.new) (pulled i (told self.old)) }
        ensures fits { IsTold (told self.new) }
        ensures ended { StaysEnded Answer.Pull (ending self.old) (is_lost self.old) (ending self.new) (is_lost self.new) }
        ensures does { Does (Act.Pull i) self.old Answer.Pull self.new }
        ensures origin { SameOrigin self.old self.new };

    /// Plants the step word at an address.
    fn plant_step(&mut self, at: u64)
        requires { IsTrue (is_allowed (Act.PlantStep at) (told self.old)) }
        ensures gives { Changes (told self.old) (told self.new) (step_planted at (told self.old)) }
        ensures fits { IsTold (told self.new) }
        ensures ended { StaysEnded Answer.PlantStep (ending self.old) (is_lost self.old) (ending self.new) (is_lost self.new) }
        ensures does { Does (Act.PlantStep at) self.old Answer.PlantStep self.new }
        ensures origin { SameOrigin self.old self.new };

    /// Takes the step word out.
    fn pull_step(&mut self)
        requires { IsTrue (is_allowed Act.PullStep (told self.old)) }
        ensures gives { Changes (told self.old) (told self.new) (step_pulled (told self.old)) }
        ensures fits { IsTold (told self.new) }
        ensures ended { StaysEnded Answer.PullStep (ending self.old) (is_lost self.old) (ending self.new) (is_lost self.new) }
        ensures does { Does Act.PullStep self.old Answer.PullStep self.new }
        ensures origin { SameOrigin self.old self.new };

    /// Plants the word of a place, from 0 to 15, again.
    fn plant(&mut self, i: u8)
        requires { IsTrue (is_allowed (Act.Plant i) (told self.old)) }
        ensures gives { Changes (told self.old) (told self.new) (replanted i (told self.old)) }
        ensures fits { IsTold (told self.new) }
        ensures ended { StaysEnded Answer.Plant (ending self.old) (is_lost self.old) (ending self.new) (is_lost self.new) }
        ensures does { Does (Act.Plant i) self.old Answer.Plant self.new }
        ensures origin { SameOrigin self.old self.new };

    /// Closes the hart's session.
    fn close(&mut self, h: Hart)
        requires { IsTrue (is_allowed (Act.Close h) (told self.old)) }
        ensures gives { CloseGives (told self.old) (told self.new) }
        ensures fits { IsTold (told self.new) }
        ensures ended { StaysEnded Answer.Close (ending self.old) (is_lost self.old) (ending self.new) (is_lost self.new) }
        ensures does { Does (Act.Close h) self.old Answer.Close self.new }
        ensures origin { SameOrigin self.old self.new };

    /// Opens a session of the hart with these late harts, a mask; or again, after a single-step pass.
    fn enter(&mut self, h: Hart, late: u64) -> Entered
        requires { IsTrue (is_allowed (Act.Enter h late) (told self.old)) }
        ensures gives { EnterGives h.0 late (told self.old) result (told self.new) }
        ensures fits { IsTold (told self.new) }
        ensures ended { StaysEnded (Answer.Enter result) (ending self.old) (is_lost self.old) (ending self.new) (is_lost self.new) }
        ensures does { Does (Act.Enter h late) self.old (Answer.Enter result) self.new }
        ensures origin { SameOrigin self.old self.new };

    /// Runs the next script line in the hart's session.
    fn line(&mut self, h: Hart) -> Lined
        requires { IsTrue (is_allowed (Act.Line h) (told self.old)) }
        ensures gives { LineGives (told self.old) result (told self.new) }
        ensures fits { IsTold (told self.new) }
        ensures ended { StaysEnded (Answer.Line result) (ending self.old) (is_lost self.old) (ending self.new) (is_lost self.new) }
        ensures does { Does (Act.Line h) self.old (Answer.Line result) self.new }
        ensures origin { SameOrigin self.old self.new };

    /// Executes the one instruction of the hart's single-step pass.
    fn pass_step(&mut self, h: Hart) -> Passed
        requires { IsTrue (is_allowed (Act.PassStep h) (told self.old)) }
        ensures gives { PassGives h.0 (told self.old) result (told self.new) }
        ensures fits { IsTold (told self.new) }
        ensures ended { StaysEnded (Answer.PassStep result) (ending self.old) (is_lost self.old) (ending self.new) (is_lost self.new) }
        ensures does { Does (Act.PassStep h) self.old (Answer.PassStep result) self.new }
        ensures origin { SameOrigin self.old self.new };

    /// The number of harts, from 1 to `MASK_HARTS`.
    fn harts(&self) -> u8
        ensures { result ≡ (told self.now).harts };

    /// The mask of the harts that the open session has stopped.
    fn mask(&self) -> u64
        ensures { result ≡ (told self.now).mask };

    /// The ending, where one was written down.
    fn over(&self) -> Option<Ending>
        ensures { result ≡ ending self.now };

    /// Whether a line ran out of memory; it stays true.
    fn lost(&self) -> bool
        ensures { result ≡ is_lost self.now };

    /// All else that the bus tells.
    fn notes(&self) -> Notes
        ensures { told self.now ≡ told_of (told self.now).harts (told self.now).mask result };

    /// An ending counts as standing too once memory has run out.
    ghost over_is: { (b : Self) → (told b).over ≡ (is_some (ending b) || is_lost b) };

    /// Every bus has its own origin.
    ghost origin_here: { (b : Self) → SameOrigin b b };

    /// The origin is the same over several calls.
    ghost origin_on: { (a b c : Self) → SameOrigin a b → SameOrigin b c → SameOrigin a c };
}
