//! A call of a bus by its name and arguments.
ghost use Rattle.std.specs.Prelude.{◌≡◌, IsTrue};
ghost use Rattle.deck_core.specs.contract.Allowed.{is_allowed};
ghost use Rattle.deck_core.specs.contract.Calls.{HonestCall, StaysEnded};
ghost use Rattle.deck_core.specs.decks.Seat.{is_idle};

use crate::{Act, Answer, Bus, Turned};

/// Makes the call on the bus, under the call's own condition.
pub fn call<B: Bus>(bus: &mut B, act: Act) -> Answer
    requires { IsTrue (is_allowed act (B.told bus.old)) }
    ensures acts { HonestCall act (B.told bus.old) result (B.told bus.new) }
    ensures ended { StaysEnded result (B.ending bus.old) (B.is_lost bus.old) (B.ending bus.new) (B.is_lost bus.new) }
    ensures does { B.Does act bus.old result bus.new }
    ensures origin { B.SameOrigin bus.old bus.new }
{
    match act {
        Act::HartStep(h) => Answer::HartStep(bus.hart_step(h)),
        Act::Check(h) => Answer::Check(bus.check(h)),
        Act::Send(to) => {
            bus.send(to);
            Answer::Send
        }
        Act::Pull(i) => {
            bus.pull(i);
            Answer::Pull
        }
        Act::PlantStep(at) => {
            bus.plant_step(at);
            Answer::PlantStep
        }
        Act::PullStep => {
            bus.pull_step();
            Answer::PullStep
        }
        Act::Plant(i) => {
            bus.plant(i);
            Answer::Plant
        }
        Act::Close(h) => {
            bus.close(h);
            Answer::Close
        }
        Act::Enter(h, late) => Answer::Enter(bus.enter(h, late)),
        Act::Line(h) => Answer::Line(bus.line(h)),
        Act::PassStep(h) => Answer::PassStep(bus.pass_step(h)),
    }
}

/// Whether a call answered that the hart has nothing to do.
pub fn is_idle(answer: Answer) -> bool
    ensures { result ≡ is_idle answer }
{
    match answer {
        Answer::HartStep(Turned::Idle) => true,
        _ => false,
    }
}
