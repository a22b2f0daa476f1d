//! The laws of the protocol over whole configurations: each tick keeps the invariant, phase by phase. A layer above calls
//! the one of its step, or cites the statement of `specs/laws/Keeps.antt`. None of these functions does anything.
ghost use Rattle.deck_core.specs.laws.Keeps.{KeepsIn, KeepsFor, KeepsForBoth, PeekKeeps, TakeKeeps, GiveKeeps, FinishedLeaves, EveryTickKeeps, EveryPlanKeeps};
ghost use Rattle.deck_core.specs.declared.plain.phase.Phase.{Phase};

/// A hart's step outside a session, by any hart and with any honest bus, keeps the invariant.
#[tactic(auto, using(crate::proofs::RunPhase::run_keeps))]
pub fn run_keeps()
    ensures { KeepsIn Phase.Run }
{}

/// The load of the gate's number after a call keeps it.
#[tactic(auto, using(crate::proofs::Outside::called_keeps))]
pub fn called_keeps()
    ensures { KeepsIn Phase.Called }
{}

/// A hart's marking itself keeps it.
pub fn mark_keeps()
    ensures { KeepsFor Phase.Mark }
{}

/// A parked hart's load of the gate's number keeps it.
pub fn parked_keeps()
    ensures { KeepsFor Phase.Parked }
{}

/// The removal of a mark keeps it.
pub fn unmark_keeps()
    ensures { KeepsFor Phase.Unmark }
{}

/// A hart's saying that it wants the prompt keeps it.
#[tactic(auto, using(crate::proofs::Outside::wish_keeps))]
pub fn wish_keeps()
    ensures { KeepsIn Phase.Wish }
{}

/// The attempt to become the master keeps it.
#[tactic(auto, using(crate::proofs::Outside::want_keeps))]
pub fn want_keeps()
    ensures { KeepsIn Phase.Want }
{}

/// The check of the master's trap keeps it.
#[tactic(auto, using(crate::proofs::Elects::own_keeps))]
pub fn own_keeps()
    ensures { KeepsIn Phase.Own }
{}

/// The shutting of the gate keeps it.
#[tactic(auto, using(crate::proofs::Elects::shut_keeps))]
pub fn shut_keeps()
    ensures { KeepsIn Phase.Shut }
{}

/// The calls to the other harts keep it.
pub fn send_keeps()
    ensures { KeepsFor Phase.Send }
{}

/// The looks at the other harts' words keep it.
pub fn gather_keeps()
    ensures { KeepsFor Phase.Gather }
{}

/// The opening of a session, for the first time or again, keeps it.
pub fn enter_keeps()
    ensures { KeepsForBoth Phase.Enter }
{}

/// The removal of a planted word keeps it.
pub fn pull_keeps()
    ensures { KeepsForBoth Phase.Pull }
{}

/// A script line keeps it.
pub fn lines_keeps()
    ensures { KeepsFor Phase.Lines }
{}

/// The planting of the step word keeps it.
pub fn plant_step_keeps()
    ensures { KeepsForBoth Phase.PlantStep }
{}

/// The instruction of a single-step pass keeps it.
pub fn pass_step_keeps()
    ensures { KeepsForBoth Phase.PassStep }
{}

/// The removal of the step word keeps it.
pub fn pull_step_keeps()
    ensures { KeepsForBoth Phase.PullStep }
{}

/// The planting of a place keeps it.
pub fn plant_keeps()
    ensures { KeepsForBoth Phase.Plant }
{}

/// The closing of a session keeps it.
pub fn close_keeps()
    ensures { KeepsFor Phase.Close }
{}

/// The opening of the gate keeps it.
#[tactic(auto, using(crate::proofs::Leaves::open_gate_keeps))]
pub fn open_gate_keeps()
    ensures { KeepsIn Phase.OpenGate }
{}

/// The master's taking back of its own word keeps it.
#[tactic(auto, using(crate::proofs::Leaves::drop_keeps))]
pub fn drop_keeps()
    ensures { KeepsIn Phase.Drop }
{}

/// The freeing of the master word keeps it.
#[tactic(auto, using(crate::proofs::Leaves::free_keeps))]
pub fn free_keeps()
    ensures { KeepsIn Phase.Free }
{}

/// A finished hart keeps it.
#[tactic(auto, using(crate::proofs::Outside::finished_keeps))]
pub fn finished_keeps()
    ensures { KeepsIn Phase.Finished }
{}

/// Each tick keeps the invariant, whichever hart's it is.
pub fn every_tick_keeps()
    ensures { EveryTickKeeps }
{}

/// And so does every list of ticks.
#[tactic(auto, using(crate::proofs::EveryTick::every_plan_keeps))]
pub fn every_plan_keeps()
    ensures { EveryPlanKeeps }
{}

/// The load of the turn word keeps it, in any phase.
pub fn peek_keeps()
    ensures { PeekKeeps }
{}

/// The compare and exchange of the turn word keeps it, in any phase.
pub fn take_keeps()
    ensures { TakeKeeps }
{}

/// The call of a phase keeps it, and the giving back of the turn with it.
pub fn give_keeps()
    ensures { GiveKeeps }
{}

/// A hart that has seen an ending may count as in `Run` again.
pub fn finished_leaves()
    ensures { FinishedLeaves }
{}
