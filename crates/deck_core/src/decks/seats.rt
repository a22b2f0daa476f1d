//! The harts' words, phases and places as plain data.
ghost use Rattle.std.specs.Prelude.{◌≡◌, length};
ghost use Rattle.deck_core.specs.declared.plain.words.TheConstants.{SEATS};

use crate::plain::words::SEATS;
use crate::{Phase, Place, Words};

/// The shared words, and each hart's phase and place in a transaction, those of hart k at k. A hart that isn't there is in
/// `Run` and `Peek`.
#[derive(Clone, Copy)]
pub struct Seats {
    pub words: Words,
    pub phases: [Phase; SEATS],
    pub places: [Place; SEATS],
    ghost own_words: { length words.x ≡ SEATS },
    ghost all_phases: { length phases ≡ SEATS },
    ghost all_places: { length places ≡ SEATS },
}
