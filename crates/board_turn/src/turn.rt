//! The turn: a hart takes it by a load and a compare and exchange, and gives it back with the one call of its phase made.
ghost use Rattle.std.specs.Prelude.{◌≡◌, ◌≢◌, ◌<◌, ◌≤◌, false, IfOk, IfErr, IsTrue};
ghost use Rattle.deck_core.specs.decks.Seat.{is_answer_of};
ghost use Rattle.mach_base.specs.declared.limits.TheConstants.{MASK_HARTS};
ghost use Rattle.deck_core.specs.ticks.NextPhase.{CanGoOn, act_of, is_transaction};
ghost use Rattle.deck_core.specs.ticks.Tick.{is_busy};
ghost use Rattle.deck_core.specs.declared.plain.phase.Place.TheVariants.{Peek, Take, Give};
ghost use Rattle.board_turn.specs.Plays.{after_call, at_place};
ghost use Rattle.board_turn.specs.Ready.{IsInTheWay, IsReady, HasTaken, start_of};

use crate::plays::{GiveTurn, PeekTurn, TakeTurn};
use crate::{Board, Busy, Held, Pass, Slot, Standing, TURN};
use deck_core::{Act, Answer, Bus, Place, after_answer, call, is_busy, mask_of, turn_word};

/// Where the hart stands after the answer of its call.
fn after_call(at: Standing, answer: Answer) -> Standing
    requires few { at.harts ≤ MASK_HARTS }
    requires below { at.hart.0 < at.harts }
    requires in_range { CanGoOn at.harts at.phase }
    ensures { result ≡ after_call answer at }
{
    Standing {
        phase: after_answer(at.harts, at.hart, at.phase, answer),
        place: Place::Peek,
        ..at
    }
}

impl<B: Bus> Board<B> {
    /// Loads the turn word, and answers it where it isn't busy: it has no holder, and doesn't stop the hart, or the hart is
    /// a master in a session.
    pub fn peek_turn(&self, pass: &mut Pass<B>) -> Result<u64, Busy>
        requires ready { IsReady self.now.table.shared.table_id pass.old }
        requires phase { IsTrue (is_transaction pass.old.stand.phase) }
        requires place { pass.old.stand.place ≡ Peek }
        ensures free { IfOk result (λ word. (is_busy pass.old.stand.hart.0 pass.old.stand.phase word ≡ false) × (pass.new.stand ≡ at_place (Take word) pass.old.stand)) }
        ensures busy { IfErr result (λ b. IsTrue (is_busy pass.old.stand.hart.0 pass.old.stand.phase b.seen) × (pass.new.stand ≡ pass.old.stand)) }
        ensures ready { IsReady self.now.table.shared.table_id pass.new }
        ensures start { start_of pass.new ≡ start_of pass.old }
    {
        let found = self.table.shared.load::<PeekTurn>(&mut pass.seat, TURN);
        if is_busy(pass.stand.hart, pass.stand.phase, found) {
            return Err(Busy { seen: found });
        }
        pass.stand.place = Place::Take { seen: found };
        Ok(found)
    }

    /// Takes the turn, and with it the bus, where the turn word is still the one that was seen.
    pub fn take_turn(&self, pass: &mut Pass<B>, seen: u64) -> Result<Held<B>, Busy>
        requires ready { IsReady self.now.table.shared.table_id pass.old }
        requires phase { IsTrue (is_transaction pass.old.stand.phase) }
        requires place { pass.old.stand.place ≡ Take seen }
        ensures free { IfOk result (λ held. is_busy pass.old.stand.hart.0 pass.old.stand.phase seen ≡ false) }
        ensures taken { IfOk result (λ held. HasTaken B.told B.SameOrigin pass.new held) }
        ensures stand { IfOk result (λ held. pass.new.stand ≡ at_place Give pass.old.stand) }
        ensures busy { IfErr result (λ b. (b.seen ≢ seen) × (pass.new.stand ≡ at_place Peek pass.old.stand)) }
        ensures ready { IsReady self.now.table.shared.table_id pass.new }
        ensures start { start_of pass.new ≡ start_of pass.old }
    {
        let taken = turn_word(mask_of(seen), pass.stand.hart);
        let found = self
            .table
            .shared
            .compare_exchange::<TakeTurn>(&mut pass.seat, TURN, seen, taken);
        if found != seen {
            pass.stand.place = Place::Peek;
            return Err(Busy { seen: found });
        }
        pass.stand.place = Place::Give;
        let notes = self.load_notes(&mut pass.seat);
        match self.table.shared.exchange(&mut pass.seat, 0, None) {
            Some(Slot { bus, last: _ }) => Ok(Held { bus, notes }),
            None => unreachable!(),
        }
    }

    /// The two. Whatever was found, a turn that isn't had leaves the hart where it stood.
    pub fn try_turn(&self, pass: &mut Pass<B>) -> Result<Held<B>, Busy>
        requires ready { IsReady self.now.table.shared.table_id pass.old }
        requires phase { IsTrue (is_transaction pass.old.stand.phase) }
        requires place { pass.old.stand.place ≡ Peek }
        ensures taken { IfOk result (λ held. HasTaken B.told B.SameOrigin pass.new held) }
        ensures stand { IfOk result (λ held. pass.new.stand ≡ at_place Give pass.old.stand) }
        ensures busy { IfErr result (λ b. IsInTheWay pass.old.stand b.seen) }
        ensures stays { IfErr result (λ b. pass.new.stand ≡ pass.old.stand) }
        ensures ready { IsReady self.now.table.shared.table_id pass.new }
        ensures start { start_of pass.new ≡ start_of pass.old }
    {
        let seen = self.peek_turn(pass)?;
        self.take_turn(pass, seen)
    }

    /// Makes the phase's one call on the bus, stores its notes, puts it back into its place and writes its mask into the turn
    /// word. That the call may be made follows from the taking of the turn.
    pub fn give(&self, pass: &mut Pass<B>, held: Held<B>, act: Act) -> Answer
        requires ready { IsReady self.now.table.shared.table_id pass.old }
        requires phase { IsTrue (is_transaction pass.old.stand.phase) }
        requires taken { HasTaken B.told B.SameOrigin pass.old held }
        requires own_call { act ≡ act_of pass.old.stand.hart.0 pass.old.stand.phase }
        ensures answer { IsTrue (is_answer_of act result) }
        ensures stand { pass.new.stand ≡ after_call result pass.old.stand }
        ensures ready { IsReady self.now.table.shared.table_id pass.new }
        ensures start { start_of pass.new ≡ start_of pass.old }
    {
        let Held { bus, notes: _ } = held;
        let mut bus = bus;
        let answer = call(&mut bus, act);
        let mask = bus.mask();
        self.store_notes(&mut pass.seat, bus.notes().to_words());
        self.table
            .shared
            .exchange(&mut pass.seat, 0, Some(Slot { bus, last: answer }));
        self.table
            .shared
            .store::<GiveTurn>(&mut pass.seat, TURN, mask);
        pass.stand = after_call(pass.stand, answer);
        answer
    }
}
