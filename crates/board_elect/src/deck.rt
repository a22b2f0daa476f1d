//! A hart's pass with its board, as a deck.
ghost use Rattle.std.specs.Prelude.{◌≡◌, None, false, refl};
ghost use Rattle.deck_core.specs.ticks.Phases.{holds};
ghost use Rattle.deck_core.specs.declared.plain.phase.Phase.TheVariants.{Run};
ghost use Rattle.deck_core.specs.declared.plain.phase.Place.TheVariants.{Peek};
ghost use Rattle.board_turn.specs.Ready.{IsReady, seat_in};
ghost use Rattle.board_elect.specs.Decks.{IsSeated, SameBoard, same_board, same_boards};

use crate::{Mark, clear, free, look, mark, open_gate, see_gate, shut, try_master, want};
use board_turn::{Board, Held, Pass};
use deck_core::{Act, Answer, Bus, Deck, Place, is_idle};
use mach_base::Hart;

/// A hart's calls on the shared words. It tells no whole configuration, since other harts change it at any time.
#[derive(Drop)]
pub struct BoardSeat<'a, B: Bus> {
    pub(crate) board: &'a Board<B>,
    pub(crate) pass: Pass<B>,
    pub(crate) held: Option<Held<B>>,
    pub(crate) idle: bool,
}

impl<'a, B: Bus> BoardSeat<'a, B> {
    /// The deck of a pass of this board, which runs and holds nothing.
    pub fn new(board: &'a Board<B>, pass: Pass<B>) -> BoardSeat<'a, B>
        requires ready { IsReady board.now.table.shared.table_id pass }
        requires phase { pass.stand.phase ≡ Run }
        requires place { pass.stand.place ≡ Peek }
        ensures ready { IsSeated B.told B.SameOrigin board.entry.now.table.shared.table_id result.pass result.held }
        ensures board { result.board.now.table.shared.table_id ≡ board.entry.now.table.shared.table_id }
        ensures pass { result.pass ≡ pass }
        ensures idle { result.idle ≡ false }
    {
        BoardSeat {
            board,
            pass,
            held: None,
            idle: false,
        }
    }

    /// The pass of a deck that holds nothing.
    pub fn into_pass(self) -> Pass<B>
        requires { holds self.pass.stand.place ≡ false }
        ensures { result ≡ self.entry.pass }
    {
        let BoardSeat {
            board: _,
            pass,
            held: _,
            idle: _,
        } = self;
        pass
    }
}

impl<'a, B: Bus> Deck for BoardSeat<'a, B> {
    ghost seat = { λ d. seat_in d.idle d.pass };

    ghost whole = { λ d. None };

    ghost SameOrigin = { λ a b. SameBoard a.board.now.table.shared.table_id b.board.now.table.shared.table_id a.pass b.pass };

    ghost bus = { λ d. tt };

    ghost Does = { λ _ _ _ _. Unit {0} };

    ghost IsReady = { λ d. IsSeated B.told B.SameOrigin d.board.now.table.shared.table_id d.pass d.held };

    ghost agrees = { λ d. tt };

    ghost origin_here = { λ d. same_board d.board.now.table.shared.table_id d.pass };

    ghost origin_on = { λ a b c x y. same_boards a.board.now.table.shared.table_id b.board.now.table.shared.table_id c.board.now.table.shared.table_id a.pass b.pass c.pass x y };

    fn peek_turn(&mut self) -> bool {
        let seen = self.board.peek_turn(&mut self.pass);
        self.idle = false;
        seen.is_ok()
    }

    fn take_turn(&mut self) -> bool {
        let Place::Take { seen } = self.pass.stand.place else {
            unreachable!()
        };
        self.idle = false;
        match self.board.take_turn(&mut self.pass, seen) {
            Ok(held) => {
                self.held = Some(held);
                true
            }
            Err(_) => false,
        }
    }

    fn give(&mut self, act: Act) -> Answer {
        match self.held.take() {
            Some(held) => {
                let answer = self.board.give(&mut self.pass, held, act);
                self.idle = is_idle(answer);
                answer
            }
            None => unreachable!(),
        }
    }

    fn want(&mut self) {
        want(self.board, &mut self.pass);
        self.idle = false;
    }

    fn try_master(&mut self) -> bool {
        let won = try_master(self.board, &mut self.pass);
        self.idle = false;
        won.is_ok()
    }

    fn shut(&mut self) {
        shut(self.board, &mut self.pass);
        self.idle = false;
    }

    fn look(&mut self, k: Hart) -> bool {
        let found = look(self.board, &mut self.pass, k);
        self.idle = false;
        match found {
            Mark::Marked => true,
            Mark::Not { seen: _ } => false,
        }
    }

    fn open_gate(&mut self) {
        open_gate(self.board, &mut self.pass);
        self.idle = false;
    }

    fn clear(&mut self) {
        clear(self.board, &mut self.pass);
        self.idle = false;
    }

    fn free(&mut self) {
        free(self.board, &mut self.pass);
        self.idle = false;
    }

    fn mark(&mut self, gate: u64) {
        mark(self.board, &mut self.pass, gate);
        self.idle = false;
    }

    fn see_gate(&mut self) -> u64 {
        let gate = see_gate(self.board, &mut self.pass);
        self.idle = false;
        gate
    }
}
