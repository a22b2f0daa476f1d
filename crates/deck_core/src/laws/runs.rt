//! What holds of whole runs: lists of ticks with their bus. None of these functions does anything.
ghost use Rattle.std.specs.Prelude.{◌≡◌, Bool, false};
ghost use Rattle.deck_core.specs.contract.Told.{Told};
ghost use Rattle.deck_core.specs.ticks.Run.{IsOrderOver};
ghost use Rattle.deck_core.specs.laws.Runs.{RunsAreTicks, RunsKeep, RunsAreExact, LateWereMissed, GoneTrapGoesBack};
ghost use Rattle.deck_core.specs.declared.plain.act.Act.{Act};
ghost use Rattle.deck_core.specs.declared.plain.act.Answer.{Answer};

use crate::Bus;

/// A bus with an order that no call goes down in, as its journal, of which each is a prefix of the next.
pub trait GrowingBus: Bus {
    /// That the second bus isn't below the first.
    ghost GrowsTo: { Self → Self → Type 0 };

    /// It holds from each bus to itself, over several calls, and over each call.
    ghost is_order: { IsOrderOver Self.Does GrowsTo };
}

/// A bus whose calls are a function of a state that it shows, as long as no line runs out of memory.
pub trait ExactBus: Bus {
    /// What the bus shows.
    ghost State: { Type 0 };

    /// The state of a bus.
    ghost state: { Self → State };

    /// What a bus of this state tells.
    ghost told_in: { State → Told };

    /// The answer and the state after a call.
    ghost called: { Act → State → Answer × State };

    /// A bus that lost nothing tells what its state says.
    ghost tells: { (b : Self) → Self.is_lost b ≡ false → Self.told b ≡ told_in (state b) };

    /// What is lost stays lost.
    ghost unlost: { (act : Act) (b after : Self) (a : Answer) → Self.Does act b a after → Self.is_lost after ≡ false → Self.is_lost b ≡ false };

    /// A call after which nothing is lost is the function's.
    ghost exact: { (act : Act) (b after : Self) (a : Answer) → Self.Does act b a after → Self.is_lost after ≡ false → (a, state after) ≡ called act (state b) };
}

/// A run is a list of ticks.
pub fn runs_are_ticks<B: Bus>()
    ensures { RunsAreTicks B.told B.Does }
{}

/// An order that no call goes down in holds over a run.
pub fn runs_grow<B: GrowingBus>()
    ensures { RunsKeep B.told B.Does B.GrowsTo }
{}

/// Where the calls are a function of a state and nothing is lost, the end of a run follows from its plan.
pub fn runs_are_exact<B: ExactBus>()
    ensures { RunsAreExact B.told B.Does B.is_lost B.state B.told_in B.called }
{}

/// A hart is late only where its master's own looks missed it in each of the rounds and never found it marked.
pub fn late_were_missed()
    ensures { LateWereMissed }
{}

/// A hart whose trap is gone when it is checked goes back without a session.
pub fn gone_trap_goes_back()
    ensures { GoneTrapGoesBack }
{}
