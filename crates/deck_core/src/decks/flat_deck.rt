//! The pure deck's calls are the ticks of the selected hart.
ghost use Rattle.std.specs.Prelude.{◌≡◌, Some, refl};
ghost use Rattle.deck_core.specs.decks.Seat.{seat_of};
ghost use Rattle.deck_core.specs.decks.Seats.{configuration_of};

use crate::contract::calls::{call, is_idle};
use crate::decks::flat::Flat;
use crate::decks::seat_steps::{
    enters, frees, gives, is_marked, peeks, phase_of, place_of, takes, tries_master, turns_gate,
    writes,
};
use crate::ticks::next_phase::{after_answer, after_clear, after_gate, after_look, after_shut};
use crate::{Act, Answer, Bus, Deck, Phase, Place};
use mach_base::Hart;

impl<B: Bus> Deck for Flat<B> {
    ghost seat = { λ d. seat_of d.selected.0 d.idle (configuration_of d.limit d.seats (B.told d.bus)) };

    ghost whole = { λ d. Some (configuration_of d.limit d.seats (B.told d.bus)) };

    ghost SameOrigin = { λ a b. B.SameOrigin a.bus b.bus };

    ghost Bus = { B };

    ghost bus = { λ d. d.bus };

    ghost Does = { B.Does };

    ghost agrees = { λ d. refl };

    ghost origin_here = { λ d. B.origin_here d.bus };

    ghost origin_on = { λ a b c x y. B.origin_on a.bus b.bus c.bus x y };

    fn peek_turn(&mut self) -> bool {
        let h = self.selected;
        let phase = phase_of(&self.seats, h);
        let free = peeks(&mut self.seats, h, phase);
        self.idle = false;
        free
    }

    fn take_turn(&mut self) -> bool {
        let h = self.selected;
        match place_of(&self.seats, h) {
            Place::Take { seen } => {
                let taken = takes(&mut self.seats, h, seen);
                self.idle = false;
                taken
            }
            _ => unreachable!(),
        }
    }

    fn give(&mut self, act: Act) -> Answer {
        let h = self.selected;
        let harts = self.bus.harts();
        let phase = phase_of(&self.seats, h);
        let answer = call(&mut self.bus, act);
        let next = after_answer(harts, h, phase, answer);
        let mask = self.bus.mask();
        gives(&mut self.seats, h, next, mask);
        self.idle = is_idle(answer);
        answer
    }

    fn want(&mut self) {
        writes(&mut self.seats, self.selected, 1, Phase::Want);
        self.idle = false;
    }

    fn try_master(&mut self) -> bool {
        let won = tries_master(&mut self.seats, self.selected);
        self.idle = false;
        won
    }

    fn shut(&mut self) {
        let next = after_shut(self.bus.harts(), self.selected);
        turns_gate(&mut self.seats, self.selected, next);
        self.idle = false;
    }

    fn look(&mut self, k: Hart) -> bool {
        let h = self.selected;
        match phase_of(&self.seats, h) {
            Phase::Gather { looks } => {
                let counts = is_marked(&self.seats, k);
                let next = after_look(self.limit, self.bus.harts(), h, looks, counts);
                enters(&mut self.seats, h, next);
                self.idle = false;
                counts
            }
            _ => unreachable!(),
        }
    }

    fn open_gate(&mut self) {
        turns_gate(&mut self.seats, self.selected, Phase::Drop);
        self.idle = false;
    }

    fn clear(&mut self) {
        let next = after_clear(phase_of(&self.seats, self.selected));
        writes(&mut self.seats, self.selected, 0, next);
        self.idle = false;
    }

    fn free(&mut self) {
        frees(&mut self.seats, self.selected);
        self.idle = false;
    }

    fn mark(&mut self, gate: u64) {
        writes(&mut self.seats, self.selected, gate, Phase::Parked { gate });
        self.idle = false;
    }

    fn see_gate(&mut self) -> u64 {
        let h = self.selected;
        let gate = self.seats.words.gate;
        let next = after_gate(phase_of(&self.seats, h), gate);
        enters(&mut self.seats, h, next);
        self.idle = false;
        gate
    }
}
