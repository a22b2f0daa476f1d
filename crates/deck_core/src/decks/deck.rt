//! One hart's calls on the shared words.
ghost use Rattle.std.specs.Prelude.{◌≡◌, ◌==◌, ℕ, ⊤, Bool, true, false, not, Option, IsTrue, if◌then◌else◌};
ghost use Rattle.std.specs.Bool.{OnTrue, OnFalse};
ghost use Rattle.deck_core.specs.ticks.Configuration.{Configuration};
ghost use Rattle.deck_core.specs.ticks.Phases.{holds};
ghost use Rattle.deck_core.specs.ticks.NextPhase.{is_transaction, act_of, after_answer, after_shut, after_look, after_gate};
ghost use Rattle.deck_core.specs.ticks.Tick.{is_busy, mark_counts};
ghost use Rattle.deck_core.specs.decks.Seat.{Seat, Agrees, Found, Loaded, WholeTicks, WholeGives, is_idle, is_answer_of, is_peek, is_take, seen_at, is_gather, looks_in, sees_gate, clears, in_phase, at_place, after_its_look, after_its_call};
ghost use Rattle.deck_core.specs.ticks.NextPhase.{after_clear};
ghost use Rattle.deck_core.specs.declared.plain.phase.Phase.{Phase};
ghost use Rattle.deck_core.specs.declared.plain.phase.Place.{Place};
ghost use Rattle.deck_core.specs.declared.plain.act.Act.{Act};
ghost use Rattle.deck_core.specs.declared.plain.act.Answer.{Answer};

use crate::{Act, Answer};
use mach_base::Hart;

/// The calls of one hart. Each is one tick of the hart, and asks that the hart stands before it. No call asks anything
/// of the bus: that follows from the invariant.
pub trait Deck {
    /// The hart's number, phase and place, the numbers that stay, and whether the last call was a `give` that
    /// answered Idle.
    ghost seat: { Self → Seat };

    /// The whole configuration, where it is told.
    ghost whole: { Self → Option Configuration };

    /// That a deck is what became of another by calls: its bus has the same origin.
    ghost SameOrigin: { Self → Self → Type 0 };

    /// What is told of the bus behind the turn.
    ghost Bus: { Type 0 } = { Unit {0} };

    /// That of this deck.
    ghost bus: { Self → Bus };

    /// That a call of the bus with this answer makes one bus of another.
    ghost Does: { Act → Bus → Answer → Bus → Type 0 };

    /// That the deck can make its hart's next tick. Every call asks for it and leaves it so.
    ghost IsReady: { Self → Type 0 } = { λ _. ⊤ };

    /// Loads the turn word before a call of the bus. False where the turn is busy: it has a holder, or the hart is stopped
    /// and is no master in a session.
    fn peek_turn(&mut self) -> bool
        requires ready { IsReady self.old }
        requires phase { IsTrue (is_transaction (seat self.old).phase) }
        requires place { IsTrue (is_peek (seat self.old).place) }
        ensures seen { OnTrue result ((word : ℕ) × (seat self.new ≡ at_place (Place.Take word) (seat self.old))) }
        ensures busy { OnFalse result (seat self.new ≡ record (seat self.old) { idle = false }) }
        ensures found { Found result (λ c. not (is_busy (seat self.old).hart (seat self.old).phase c.turn)) (whole self.old) }
        ensures ticks { WholeTicks (seat self.old).hart (whole self.old) (whole self.new) }
        ensures bus { bus self.new ≡ bus self.old }
        ensures ready { IsReady self.new }
        ensures origin { SameOrigin self.old self.new };

    /// Takes the turn where the turn word is still the one that was seen. False where it isn't.
    fn take_turn(&mut self) -> bool
        requires ready { IsReady self.old }
        requires phase { IsTrue (is_transaction (seat self.old).phase) }
        requires place { IsTrue (is_take (seat self.old).place) }
        ensures seat { seat self.new ≡ at_place (if result then Place.Give else Place.Peek) (seat self.old) }
        ensures found { Found result (λ c. c.turn == seen_at (seat self.old).place) (whole self.old) }
        ensures ticks { WholeTicks (seat self.old).hart (whole self.old) (whole self.new) }
        ensures bus { bus self.new ≡ bus self.old }
        ensures ready { IsReady self.new }
        ensures origin { SameOrigin self.old self.new };

    /// Makes the phase's one call of the bus, answers what the bus answers, and gives the turn back.
    fn give(&mut self, act: Act) -> Answer
        requires ready { IsReady self.old }
        requires phase { IsTrue (is_transaction (seat self.old).phase) }
        requires place { IsTrue (holds (seat self.old).place) }
        requires own_call { act ≡ act_of (seat self.old).hart (seat self.old).phase }
        ensures answer { IsTrue (is_answer_of act result) }
        ensures seat { seat self.new ≡ after_its_call result (seat self.old) }
        ensures ticks { WholeGives (seat self.old).hart result (whole self.old) (whole self.new) }
        ensures does { Does act (bus self.old) result (bus self.new) }
        ensures ready { IsReady self.new }
        ensures origin { SameOrigin self.old self.new };

    /// Says in the hart's own word that it wants the prompt.
    fn want(&mut self)
        requires ready { IsReady self.old }
        requires phase { (seat self.old).phase ≡ Phase.Wish }
        ensures seat { seat self.new ≡ in_phase Phase.Want (seat self.old) }
        ensures ticks { WholeTicks (seat self.old).hart (whole self.old) (whole self.new) }
        ensures bus { bus self.new ≡ bus self.old }
        ensures ready { IsReady self.new }
        ensures origin { SameOrigin self.old self.new };

    /// Tries to become the master. False where there is one.
    fn try_master(&mut self) -> bool
        requires ready { IsReady self.old }
        requires phase { (seat self.old).phase ≡ Phase.Want }
        ensures seat { seat self.new ≡ in_phase (if result then Phase.Own else Phase.Want) (seat self.old) }
        ensures found { Found result (λ c. c.master == 0) (whole self.old) }
        ensures ticks { WholeTicks (seat self.old).hart (whole self.old) (whole self.new) }
        ensures bus { bus self.new ≡ bus self.old }
        ensures ready { IsReady self.new }
        ensures origin { SameOrigin self.old self.new };

    /// Shuts the gate: its number grows by 1, to an odd one.
    fn shut(&mut self)
        requires ready { IsReady self.old }
        requires phase { (seat self.old).phase ≡ Phase.Shut }
        ensures seat { seat self.new ≡ in_phase (after_shut (seat self.old).harts (seat self.old).hart) (seat self.old) }
        ensures ticks { WholeTicks (seat self.old).hart (whole self.old) (whole self.new) }
        ensures bus { bus self.new ≡ bus self.old }
        ensures ready { IsReady self.new }
        ensures origin { SameOrigin self.old self.new };

    /// Looks at the word of the hart that is next. False where its mark doesn't count: the word is neither 1 nor the gate's
    /// number.
    fn look(&mut self, k: Hart) -> bool
        requires ready { IsReady self.old }
        requires phase { IsTrue (is_gather (seat self.old).phase) }
        requires next { k.0 ≡ (looks_in (seat self.old).phase).next }
        ensures seat { seat self.new ≡ after_its_look result (seat self.old) }
        ensures found { Found result (λ c. mark_counts c k.0) (whole self.old) }
        ensures ticks { WholeTicks (seat self.old).hart (whole self.old) (whole self.new) }
        ensures bus { bus self.new ≡ bus self.old }
        ensures ready { IsReady self.new }
        ensures origin { SameOrigin self.old self.new };

    /// Opens the gate: its number grows by 1, to an even one.
    fn open_gate(&mut self)
        requires ready { IsReady self.old }
        requires phase { (seat self.old).phase ≡ Phase.OpenGate }
        ensures seat { seat self.new ≡ in_phase Phase.Drop (seat self.old) }
        ensures ticks { WholeTicks (seat self.old).hart (whole self.old) (whole self.new) }
        ensures bus { bus self.new ≡ bus self.old }
        ensures ready { IsReady self.new }
        ensures origin { SameOrigin self.old self.new };

    /// Takes the hart's own word back: a mark, or that of a master that is done.
    fn clear(&mut self)
        requires ready { IsReady self.old }
        requires phase { IsTrue (clears (seat self.old).phase) }
        ensures seat { seat self.new ≡ in_phase (after_clear (seat self.old).phase) (seat self.old) }
        ensures ticks { WholeTicks (seat self.old).hart (whole self.old) (whole self.new) }
        ensures bus { bus self.new ≡ bus self.old }
        ensures ready { IsReady self.new }
        ensures origin { SameOrigin self.old self.new };

    /// Frees the master word.
    fn free(&mut self)
        requires ready { IsReady self.old }
        requires phase { (seat self.old).phase ≡ Phase.Free }
        ensures seat { seat self.new ≡ in_phase Phase.Run (seat self.old) }
        ensures ticks { WholeTicks (seat self.old).hart (whole self.old) (whole self.new) }
        ensures bus { bus self.new ≡ bus self.old }
        ensures ready { IsReady self.new }
        ensures origin { SameOrigin self.old self.new };

    /// Marks the hart with the number at which it saw the gate shut.
    fn mark(&mut self, gate: u64)
        requires ready { IsReady self.old }
        requires phase { (seat self.old).phase ≡ Phase.Mark gate }
        ensures seat { seat self.new ≡ in_phase (Phase.Parked gate) (seat self.old) }
        ensures ticks { WholeTicks (seat self.old).hart (whole self.old) (whole self.new) }
        ensures bus { bus self.new ≡ bus self.old }
        ensures ready { IsReady self.new }
        ensures origin { SameOrigin self.old self.new };

    /// Loads the gate's number, after a call or while the hart is parked.
    fn see_gate(&mut self) -> u64
        requires ready { IsReady self.old }
        requires phase { IsTrue (sees_gate (seat self.old).phase) }
        ensures seat { seat self.new ≡ in_phase (after_gate (seat self.old).phase result) (seat self.old) }
        ensures loaded { Loaded result (λ c. c.gate) (whole self.old) }
        ensures ticks { WholeTicks (seat self.old).hart (whole self.old) (whole self.new) }
        ensures bus { bus self.new ≡ bus self.old }
        ensures ready { IsReady self.new }
        ensures origin { SameOrigin self.old self.new };

    /// The whole configuration agrees with the seat.
    ghost agrees: { (d : Self) → Agrees (seat d) (whole d) };

    /// Every deck has its own origin.
    ghost origin_here: { (d : Self) → SameOrigin d d };

    /// The origin is the same over several calls.
    ghost origin_on: { (a b c : Self) → SameOrigin a b → SameOrigin b c → SameOrigin a c };
}
