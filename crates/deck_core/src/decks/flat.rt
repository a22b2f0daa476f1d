//! The pure deck: words, phases and the bus in one value, with one hart selected.
ghost use Rattle.std.specs.Prelude.{◌≡◌, ◌<◌, ◌≤◌, Some, IfOk, false};
ghost use Rattle.std.specs.Option.{option_map};
ghost use Rattle.deck_core.specs.contract.Told.{Told, IsOpening};
ghost use Rattle.deck_core.specs.ticks.Configuration.{Configuration, opening};
ghost use Rattle.deck_core.specs.decks.Seat.{seat_of};
ghost use Rattle.deck_core.specs.Invariant.{Sound};
ghost use Rattle.deck_core.specs.decks.Seats.{configuration_of};
ghost use Rattle.mach_base.specs.declared.limits.TheConstants.{MASK_HARTS};

use crate::decks::seats::Seats;
use crate::plain::words::SEATS;
use crate::{Bus, Deck, Phase, Place, Words};
use mach_base::{Hart, OutOfMemory};
use std::alloc::Global;

/// A bus with the words, phases and places of its harts, of which one is selected.
#[derive(Drop)]
pub struct Flat<B: Bus> {
    pub(crate) bus: B,
    pub(crate) limit: u32,
    pub(crate) seats: Seats,
    pub(crate) selected: Hart,
    pub(crate) idle: bool,
    ghost selected_is_one: { selected.0 < (B.told bus).harts },
    ghost few: { (B.told bus).harts ≤ MASK_HARTS },
    ghost sound: { ∥ Sound (configuration_of limit seats (B.told bus)) ∥₁ },
}

impl<B: Bus> Flat<B> {
    /// The opening configuration over an opening bus, with hart 0 selected. `limit` is the number of rounds after which a
    /// gathering ends.
    pub fn new(alloc: Global, bus: B, limit: u32) -> Result<Flat<B>, OutOfMemory>
        requires bus { IsOpening (B.told bus) }
        requires rounds { 0 < limit }
        ensures bus { IfOk result (λ deck. deck.bus ≡ bus) }
        ensures whole { IfOk result (λ deck. ⟦<Flat<B> as Deck>⟧.whole deck ≡ Some (opening limit (B.told bus))) }
        ensures seat { IfOk result (λ deck. ⟦<Flat<B> as Deck>⟧.seat deck ≡ seat_of 0 false (opening limit (B.told bus))) }
    {
        let _ = alloc;
        let words = Words {
            turn: 0,
            master: 0,
            gate: 2,
            x: [0; SEATS],
        };
        let phases = [Phase::Run; SEATS];
        let places = [Place::Peek; SEATS];
        Ok(Flat {
            bus,
            limit,
            seats: Seats {
                words,
                phases,
                places,
            },
            selected: Hart(0),
            idle: false,
        })
    }

    /// Selects another hart, and changes nothing else.
    pub fn select(&mut self, h: Hart)
        requires { h.0 < (⟦<Flat<B> as Deck>⟧.seat self.old).harts }
        ensures whole { ⟦<Flat<B> as Deck>⟧.whole self.new ≡ ⟦<Flat<B> as Deck>⟧.whole self.old }
        ensures hart { (⟦<Flat<B> as Deck>⟧.seat self.new).hart ≡ h.0 }
        ensures bus { self.new.bus ≡ self.old.bus }
        ensures idle { (⟦<Flat<B> as Deck>⟧.seat self.new).idle ≡ (⟦<Flat<B> as Deck>⟧.seat self.old).idle }
        ensures origin { ⟦<Flat<B> as Deck>⟧.SameOrigin self.old self.new }
    {
        self.selected = h;
    }

    /// The bus.
    pub fn bus(&self) -> &B
        ensures value { result.now ≡ self.now.bus }
        ensures told { option_map (λ c. c.told) (⟦<Flat<B> as Deck>⟧.whole self.now) ≡ Some (B.told result.now) }
    {
        &self.bus
    }

    /// The bus, of the origin of the one that the deck began with.
    pub fn into_bus(self) -> B
        ensures value { result ≡ self.bus }
        ensures told { option_map (λ c. c.told) (⟦<Flat<B> as Deck>⟧.whole self) ≡ Some (B.told result) }
    {
        self.bus
    }
}
