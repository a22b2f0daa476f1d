//! The call that a phase makes, and where a phase leads, as plain functions.
ghost use Rattle.std.specs.Prelude.{◌≡◌, ◌<◌, ◌≤◌, Option, None, Some};
ghost use Rattle.mach_base.specs.Masks.{mask_with, least_outside};
ghost use Rattle.deck_core.specs.ticks.NextPhase.{after_step, after_check, skipping, first_look, entering, after_shut, after_send, gathered_after, after_look, round_over, looks_on, pulling, planting, after_enter, after_line, passing, then_of, after_pull_step, after_pass, act_of, is_transaction, after_answer, after_gate, CanGoOn, step_answer, check_answer, enter_answer, line_answer, pass_answer};
ghost use Rattle.deck_core.specs.ticks.NextPhase.{after_clear};
ghost use Rattle.mach_base.specs.declared.limits.TheConstants.{MASK_HARTS};

use crate::{Act, Answer, Entered, Kept, Lined, Looks, Passed, Phase, Then, Turned};
use mach_base::{Hart, all_but, least, least_outside, mask_with, without_least};

/// The one call of hart h in a phase that is a transaction. In other phases the answer says nothing.
pub fn act_of(h: Hart, phase: Phase) -> Act
    ensures { result ≡ act_of h.0 phase }
{
    match phase {
        Phase::Own => Act::Check(h),
        Phase::Send { to } => Act::Send(Hart(to)),
        Phase::Enter { kept, .. } => Act::Enter(h, kept.late),
        Phase::Pull { left, .. } => Act::Pull(least(left)),
        Phase::Lines { .. } => Act::Line(h),
        Phase::PlantStep { at, .. } => Act::PlantStep(at),
        Phase::PassStep { .. } => Act::PassStep(h),
        Phase::PullStep { .. } => Act::PullStep,
        Phase::Plant { left, .. } => Act::Plant(least(left)),
        Phase::Close { .. } => Act::Close(h),
        _ => Act::HartStep(h),
    }
}

fn after_step(turned: Turned) -> Phase
    ensures { result ≡ after_step turned }
{
    match turned {
        Turned::Off => Phase::Finished,
        Turned::Called => Phase::Called,
        Turned::Trapped => Phase::Wish,
        Turned::Idle | Turned::Took | Turned::Stepped => Phase::Run,
    }
}

fn skipping(master: Hart, k: u8) -> u8
    requires { k < 255 }
    ensures { result ≡ skipping master.0 k }
{
    if k == master.0 { k + 1 } else { k }
}

fn entering(harts: u8, master: Hart, gathered: u64) -> Phase
    requires few { harts ≤ MASK_HARTS }
    requires below { master.0 < harts }
    ensures { result ≡ entering harts master.0 gathered }
{
    Phase::Enter {
        kept: Kept {
            late: all_but(harts, mask_with(gathered, master.0)),
        },
        reopens: false,
    }
}

/// The master's phase after it has shut the gate: it calls the first other hart, if there is one.
pub fn after_shut(harts: u8, master: Hart) -> Phase
    requires few { harts ≤ MASK_HARTS }
    requires below { master.0 < harts }
    ensures { result ≡ after_shut harts master.0 }
{
    let to = skipping(master, 0);
    if to < harts {
        Phase::Send { to }
    } else {
        entering(harts, master, 0)
    }
}

fn first_look(master: Hart) -> Phase
    ensures { result ≡ first_look master.0 }
{
    Phase::Gather {
        looks: Looks {
            rounds: 0,
            next: skipping(master, 0),
            gathered: 0,
        },
    }
}

fn after_send(harts: u8, master: Hart, to: u8) -> Phase
    requires { to < 254 }
    ensures { result ≡ after_send harts master.0 to }
{
    let next = skipping(master, to + 1);
    if next < harts {
        Phase::Send { to: next }
    } else {
        first_look(master)
    }
}

fn gathered_after(looks: Looks, counts: bool) -> u64
    requires { looks.next < MASK_HARTS }
    ensures { result ≡ gathered_after looks counts }
{
    if counts {
        mask_with(looks.gathered, looks.next)
    } else {
        looks.gathered
    }
}

fn round_over(limit: u32, harts: u8, master: Hart, looks: Looks, gathered: u64) -> Phase
    requires few { harts ≤ MASK_HARTS }
    requires below { master.0 < harts }
    requires rounds { looks.rounds < limit }
    ensures { result ≡ round_over limit harts master.0 looks gathered (least_outside harts 0 (mask_with gathered master.0)) }
{
    match least_outside(harts, 0, mask_with(gathered, master.0)) {
        Some(next) => {
            if looks.rounds + 1 < limit {
                Phase::Gather {
                    looks: Looks {
                        rounds: looks.rounds + 1,
                        next,
                        gathered,
                    },
                }
            } else {
                entering(harts, master, gathered)
            }
        }
        None => entering(harts, master, gathered),
    }
}

/// The master's phase after a look at the hart that was next, whose mark counts or not. `limit` is the number of rounds
/// after which a gathering ends.
#[tactic(auto, unfolding(crate::specs::ticks::NextPhase::after_look))]
pub fn after_look(limit: u32, harts: u8, master: Hart, looks: Looks, counts: bool) -> Phase
    requires few { harts ≤ MASK_HARTS }
    requires below { master.0 < harts }
    requires rounds { looks.rounds < limit }
    requires next { looks.next < harts }
    ensures { result ≡ after_look limit harts master.0 looks counts }
{
    let gathered = gathered_after(looks, counts);
    match least_outside(harts, looks.next + 1, mask_with(gathered, master.0)) {
        Some(next) => Phase::Gather {
            looks: Looks {
                rounds: looks.rounds,
                next,
                gathered,
            },
        },
        None => round_over(limit, harts, master, looks, gathered),
    }
}

fn pulling(kept: Kept, left: u64) -> Phase
    ensures { result ≡ pulling kept left }
{
    if left == 0 {
        Phase::Lines { kept }
    } else {
        Phase::Pull { kept, left }
    }
}

fn planting(kept: Kept, left: u64) -> Phase
    ensures { result ≡ planting kept left }
{
    if left == 0 {
        Phase::Close { kept }
    } else {
        Phase::Plant { kept, left }
    }
}

fn after_enter(kept: Kept, entered: Entered) -> Phase
    ensures { result ≡ after_enter kept entered }
{
    match entered {
        Entered::Inside { planted } => pulling(kept, planted),
        Entered::Off => Phase::Close { kept },
    }
}

fn after_line(kept: Kept, lined: Lined) -> Phase
    ensures { result ≡ after_line kept lined }
{
    match lined {
        Lined::Stay => Phase::Lines { kept },
        Lined::Pass {
            at: Some(at),
            again: _,
        } => Phase::PlantStep { kept, at },
        Lined::Pass { at: None, again: _ } => Phase::PassStep {
            kept,
            planted: false,
        },
        Lined::Free { enabled } => planting(kept, enabled),
        Lined::Ended | Lined::Lost => Phase::Close { kept },
    }
}

fn then_of(passed: Passed) -> Then
    ensures { result ≡ then_of passed }
{
    match passed {
        Passed::Free { enabled } => Then::Plant { left: enabled },
        Passed::Back | Passed::Faulted => Then::Enter,
    }
}

fn after_pull_step(kept: Kept, then: Then) -> Phase
    ensures { result ≡ after_pull_step kept then }
{
    match then {
        Then::Enter => Phase::Enter {
            kept,
            reopens: true,
        },
        Then::Plant { left } => planting(kept, left),
    }
}

fn after_pass(kept: Kept, planted: bool, passed: Passed) -> Phase
    ensures { result ≡ after_pass kept planted passed }
{
    let then = then_of(passed);
    if planted {
        Phase::PullStep { kept, then }
    } else {
        after_pull_step(kept, then)
    }
}

fn turned_in(answer: Answer) -> Turned
    ensures { result ≡ step_answer answer }
{
    match answer {
        Answer::HartStep(turned) => turned,
        _ => Turned::Idle,
    }
}

fn trapped_in(answer: Answer) -> bool
    ensures { result ≡ check_answer answer }
{
    match answer {
        Answer::Check(reason) => reason.is_some(),
        _ => false,
    }
}

fn entered_in(answer: Answer) -> Entered
    ensures { result ≡ enter_answer answer }
{
    match answer {
        Answer::Enter(entered) => entered,
        _ => Entered::Off,
    }
}

fn lined_in(answer: Answer) -> Lined
    ensures { result ≡ line_answer answer }
{
    match answer {
        Answer::Line(lined) => lined,
        _ => Lined::Ended,
    }
}

fn passed_in(answer: Answer) -> Passed
    ensures { result ≡ pass_answer answer }
{
    match answer {
        Answer::PassStep(passed) => passed,
        _ => Passed::Faulted,
    }
}

fn after_check(trapped: bool) -> Phase
    ensures { result ≡ after_check trapped }
{
    if trapped { Phase::Shut } else { Phase::Drop }
}

/// The phase of hart h, of so many, after the answer of its one call. A phase that makes none stays.
pub fn after_answer(harts: u8, h: Hart, phase: Phase, answer: Answer) -> Phase
    requires few { harts ≤ MASK_HARTS }
    requires below { h.0 < harts }
    requires in_range { CanGoOn harts phase }
    ensures { result ≡ after_answer harts h.0 phase answer }
{
    match phase {
        Phase::Run => after_step(turned_in(answer)),
        Phase::Own => after_check(trapped_in(answer)),
        Phase::Send { to } => after_send(harts, h, to),
        Phase::Enter { kept, .. } => after_enter(kept, entered_in(answer)),
        Phase::Pull { kept, left } => pulling(kept, without_least(left)),
        Phase::Lines { kept } => after_line(kept, lined_in(answer)),
        Phase::PlantStep { kept, .. } => Phase::PassStep {
            kept,
            planted: true,
        },
        Phase::PassStep { kept, planted } => after_pass(kept, planted, passed_in(answer)),
        Phase::PullStep { kept, then } => after_pull_step(kept, then),
        Phase::Plant { kept, left } => planting(kept, without_least(left)),
        Phase::Close { .. } => Phase::OpenGate,
        _ => phase,
    }
}

/// The phase of a hart that was called, or that is parked, after it has loaded the gate's number.
pub fn after_gate(phase: Phase, gate: u64) -> Phase
    ensures { result ≡ after_gate phase gate }
{
    match phase {
        Phase::Called => {
            if gate % 2 == 0 {
                Phase::Run
            } else {
                Phase::Mark { gate }
            }
        }
        Phase::Parked { gate: at } => {
            if gate == at {
                Phase::Parked { gate: at }
            } else {
                Phase::Unmark { gate: at }
            }
        }
        _ => phase,
    }
}

/// The phase of a hart after it has taken its own word back.
pub fn after_clear(phase: Phase) -> Phase
    ensures { result ≡ after_clear phase }
{
    match phase {
        Phase::Drop => Phase::Free,
        _ => Phase::Run,
    }
}

/// Whether the phase is a transaction: it makes one call of the bus, while it holds the turn.
pub fn is_transaction(phase: Phase) -> bool
    ensures { result ≡ is_transaction phase }
{
    match phase {
        Phase::Called | Phase::Mark { .. } | Phase::Parked { .. } | Phase::Unmark { .. } => false,
        Phase::Wish | Phase::Want | Phase::Shut | Phase::Gather { .. } => false,
        Phase::OpenGate | Phase::Drop | Phase::Free | Phase::Finished => false,
        _ => true,
    }
}
