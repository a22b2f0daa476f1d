//! What follows from the invariant. None of these functions does anything.
ghost use Rattle.deck_core.specs.laws.Facts.{OpeningIsSound, CallIsAllowed, OneMaster, RunsUnmasked, SessionsNeverOverlap, GoneTrapDrops, GateIsBounded, ShutBefore};

/// The opening configuration, over an opening bus, meets the invariant.
#[tactic(auto, using(crate::proofs::Opening::opening_is_sound))]
pub fn opening_is_sound()
    ensures { OpeningIsSound }
{}

/// The one call that a hart's phase makes is allowed.
#[tactic(auto, using(crate::proofs::Conditions::call_is_allowed))]
pub fn call_is_allowed()
    ensures { CallIsAllowed }
{}

/// At most one hart is in a master's phase.
#[tactic(auto, using(crate::proofs::Conditions::one_master))]
pub fn one_master()
    ensures { OneMaster }
{}

/// A hart that runs isn't stopped by a session.
#[tactic(auto, using(crate::proofs::Conditions::runs_unmasked))]
pub fn runs_unmasked()
    ensures { RunsUnmasked }
{}

/// Sessions never overlap.
#[tactic(auto, using(crate::proofs::Conditions::sessions_never_overlap))]
pub fn sessions_never_overlap()
    ensures { SessionsNeverOverlap }
{}

/// A hart whose trap is gone when it is checked goes back without a session.
pub fn gone_trap_drops()
    ensures { GoneTrapDrops }
{}

/// The gate's number is at most twice the number of a script's lines, and 4.
#[tactic(auto, using(crate::proofs::Conditions::gate_is_bounded))]
pub fn gate_is_bounded()
    ensures { GateIsBounded }
{}

/// Where the gate is shut in the phase after an answer, it was shut in the one before.
#[tactic(auto, using(crate::proofs::Joined::shut_before))]
pub fn shut_before()
    ensures { ShutBefore }
{}
