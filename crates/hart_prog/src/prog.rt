//! The program of one hart.
ghost use Rattle.std.specs.Prelude.{◌≡◌, ◌<◌, ◌≤◌, IsTrue, false};
ghost use Rattle.mach_base.specs.declared.limits.TheConstants.{MASK_HARTS};
ghost use Rattle.deck_core.specs.ticks.NextPhase.{GoesOn};
ghost use Rattle.deck_core.proofs.Programs.{goes_on_prop};

use crate::progress::{answered, word_progress};
use crate::{At, Progress};
use deck_core::{
    Deck, Phase, act_of, after_answer, after_gate, after_look, after_shut, is_transaction,
};
use mach_base::Hart;

/// Where a hart stands, with the numbers that stay: the hart's own, that of harts, and the number of rounds after which a
/// gathering ends.
#[derive(Clone, Copy, Debug, PartialEq, Eq)]
pub struct Prog {
    hart: Hart,
    harts: u8,
    limit: u32,
    pub(crate) phase: Phase,
    at: At,
    ghost one: { hart.0 < harts },
    ghost few: { harts ≤ MASK_HARTS },
    ghost rounds: { 0 < limit },
    ghost in_range: { GoesOn limit harts hart.0 phase } by { goes_on_prop limit harts hart.0 phase },
}

impl Prog {
    ghost use Rattle.deck_core.specs.ticks.Phases.{is_finished};
    ghost use Rattle.deck_core.specs.ticks.NextPhase.{is_transaction};
    ghost use Rattle.hart_prog.specs.Program.{Stands, Moves, Advances, IsNew, is_slaves, is_masters_word};

    /// The program of a hart that runs, before its first tick.
    pub fn new(h: Hart, harts: u8, limit: u32) -> Prog
        requires one { h.0 < harts }
        requires few { harts ≤ MASK_HARTS }
        requires rounds { 0 < limit }
        ensures { IsNew h.0 harts limit result }
    {
        Prog {
            hart: h,
            harts,
            limit,
            phase: Phase::Run,
            at: At::Peek,
        }
    }

    /// Makes the hart's next tick on a deck that stands where the program does. On a deck that tells its whole
    /// configuration, `Waits` where the tick was a load that found the turn busy, or found a master, the gate still shut at
    /// the hart's number, or no mark that counts, or where the hart had nothing to do; `Finished` where it saw an ending,
    /// now or before.
    pub fn advance<D: Deck>(&mut self, deck: &mut D) -> Progress
        requires stands { Stands self.old (D.seat deck.old) }
        requires ready { D.IsReady deck.old }
        ensures ticks { Advances D.Does self.new (D.seat deck.old) (D.seat deck.new) (D.bus deck.old) (D.bus deck.new) (D.whole deck.old) (D.whole deck.new) result }
        ensures ready { D.IsReady deck.new }
        ensures origin { D.SameOrigin deck.old deck.new }
    {
        if is_transaction(self.phase) {
            self.transact(deck)
        } else {
            match self.phase {
                Phase::Finished => Progress::Finished,
                _ => self.step(deck),
            }
        }
    }

    /// A tick of a transaction: loads the turn word, tries to take the turn, or makes the phase's call. After a turn that
    /// was lost, the next tick is the load again.
    fn transact<D: Deck>(&mut self, deck: &mut D) -> Progress
        requires stands { Stands self.old (D.seat deck.old) }
        requires ready { D.IsReady deck.old }
        requires phase { IsTrue (is_transaction self.old.phase) }
        ensures ticks { Advances D.Does self.new (D.seat deck.old) (D.seat deck.new) (D.bus deck.old) (D.bus deck.new) (D.whole deck.old) (D.whole deck.new) result }
        ensures ready { D.IsReady deck.new }
        ensures origin { D.SameOrigin deck.old deck.new }
    {
        match self.at {
            At::Peek => {
                if deck.peek_turn() {
                    self.at = At::Take;
                    Progress::Again
                } else {
                    Progress::Waits
                }
            }
            At::Take => {
                if deck.take_turn() {
                    self.at = At::Give;
                    Progress::Again
                } else {
                    self.at = At::Peek;
                    Progress::Again
                }
            }
            At::Give => {
                let answer = deck.give(act_of(self.hart, self.phase));
                self.phase = after_answer(self.harts, self.hart, self.phase, answer);
                self.at = At::Peek;
                answered(answer)
            }
        }
    }

    /// A tick on a word of its own or of the master, or on the gate.
    fn step<D: Deck>(&mut self, deck: &mut D) -> Progress
        requires stands { Stands self.old (D.seat deck.old) }
        requires ready { D.IsReady deck.old }
        requires quiet { is_transaction self.old.phase ≡ false }
        requires unfinished { is_finished self.old.phase ≡ false }
        ensures ticks { Advances D.Does self.new (D.seat deck.old) (D.seat deck.new) (D.bus deck.old) (D.bus deck.new) (D.whole deck.old) (D.whole deck.new) result }
        ensures ready { D.IsReady deck.new }
        ensures origin { D.SameOrigin deck.old deck.new }
    {
        let phase = self.phase;
        let (next, found) = self.word_tick(deck);
        self.phase = next;
        word_progress(phase, found)
    }

    /// The phase that follows such a tick, and whether the tick found what the hart can go on with.
    fn word_tick<D: Deck>(self, deck: &mut D) -> (Phase, bool)
        requires stands { Stands self (D.seat deck.old) }
        requires ready { D.IsReady deck.old }
        requires quiet { is_transaction self.phase ≡ false }
        requires unfinished { is_finished self.phase ≡ false }
        ensures moves { Moves self (D.seat deck.old) (D.seat deck.new) (D.bus deck.old) (D.bus deck.new) (D.whole deck.old) (D.whole deck.new) result.0 result.1 }
        ensures unfinished { is_finished result.0 ≡ false }
        ensures ready { D.IsReady deck.new }
        ensures origin { D.SameOrigin deck.old deck.new }
    {
        match self.phase {
            Phase::Called => self.slave_tick(deck),
            Phase::Mark { gate: _ } => self.slave_tick(deck),
            Phase::Parked { gate: _ } => self.slave_tick(deck),
            Phase::Unmark { gate: _ } => self.slave_tick(deck),
            _ => self.master_tick(deck),
        }
    }

    /// The same of a hart that was called.
    #[tactic(auto, using(crate::proofs::Seats::gate_unfinished))]
    fn slave_tick<D: Deck>(self, deck: &mut D) -> (Phase, bool)
        requires stands { Stands self (D.seat deck.old) }
        requires ready { D.IsReady deck.old }
        requires slave { IsTrue (is_slaves self.phase) }
        ensures moves { Moves self (D.seat deck.old) (D.seat deck.new) (D.bus deck.old) (D.bus deck.new) (D.whole deck.old) (D.whole deck.new) result.0 result.1 }
        ensures unfinished { is_finished result.0 ≡ false }
        ensures ready { D.IsReady deck.new }
        ensures origin { D.SameOrigin deck.old deck.new }
    {
        let phase = self.phase;
        match phase {
            Phase::Called => (after_gate(phase, deck.see_gate()), true),
            Phase::Mark { gate } => {
                deck.mark(gate);
                (Phase::Parked { gate }, true)
            }
            Phase::Parked { gate: at } => {
                let gate = deck.see_gate();
                (after_gate(phase, gate), gate != at)
            }
            Phase::Unmark { gate: _ } => {
                deck.clear();
                (Phase::Run, true)
            }
            _ => unreachable!(),
        }
    }

    /// The same of a hart that is to be the master, or is it.
    fn master_tick<D: Deck>(self, deck: &mut D) -> (Phase, bool)
        requires stands { Stands self (D.seat deck.old) }
        requires ready { D.IsReady deck.old }
        requires master { IsTrue (is_masters_word self.phase) }
        ensures moves { Moves self (D.seat deck.old) (D.seat deck.new) (D.bus deck.old) (D.bus deck.new) (D.whole deck.old) (D.whole deck.new) result.0 result.1 }
        ensures unfinished { is_finished result.0 ≡ false }
        ensures ready { D.IsReady deck.new }
        ensures origin { D.SameOrigin deck.old deck.new }
    {
        match self.phase {
            Phase::Wish => {
                deck.want();
                (Phase::Want, true)
            }
            Phase::Want => {
                let won = deck.try_master();
                (if won { Phase::Own } else { Phase::Want }, won)
            }
            Phase::Shut => {
                deck.shut();
                (after_shut(self.harts, self.hart), true)
            }
            Phase::Gather { looks } => {
                let counts = deck.look(Hart(looks.next));
                let next = after_look(self.limit, self.harts, self.hart, looks, counts);
                (next, counts)
            }
            Phase::OpenGate => {
                deck.open_gate();
                (Phase::Drop, true)
            }
            Phase::Drop => {
                deck.clear();
                (Phase::Free, true)
            }
            Phase::Free => {
                deck.free();
                (Phase::Run, true)
            }
            _ => unreachable!(),
        }
    }
}
