//! What each kind of step tells the hart that makes it. These types are for the proofs alone.
ghost use Rattle.board_turn.specs.Plays.{Peeks, Takes, Loads, Stores, Gives};

use crate::{Slot, View};
use atomic_table::{Join, Play, Split};
use deck_core::Bus;

/// The load of the turn word.
pub(crate) struct PeekTurn;

impl<B: Bus> Play<Option<Slot<B>>, View<B>> for PeekTurn {
    ghost then = { Peeks };
}

/// The compare and exchange of the turn word, by which a hart takes the turn.
pub(crate) struct TakeTurn;

impl<B: Bus> Play<Option<Slot<B>>, View<B>> for TakeTurn {
    ghost then = { Takes B.told B.SameOrigin };
}

/// The load of a note.
pub(crate) struct LoadNote;

impl<B: Bus> Play<Option<Slot<B>>, View<B>> for LoadNote {
    ghost then = { Loads };
}

/// The store of a note.
pub(crate) struct StoreNote;

impl<B: Bus> Play<Option<Slot<B>>, View<B>> for StoreNote {
    ghost then = { Stores };
}

/// The store of the turn word, by which the hart gives the turn back.
pub(crate) struct GiveTurn;

impl<B: Bus> Play<Option<Slot<B>>, View<B>> for GiveTurn {
    ghost then = { Gives };
}

/// The making of another hart's seat from hart 0's.
pub(crate) struct SplitSeat;

impl<B: Bus> Split<View<B>> for SplitSeat {
    ghost use Rattle.board_turn.specs.Shown.{one_more, next_view};

    ghost left = { one_more };

    ghost right = { next_view };
}

/// The joining of another hart's seat to hart 0's.
pub(crate) struct JoinSeat;

impl<B: Bus> Join<View<B>> for JoinSeat {
    ghost use Rattle.board_turn.specs.Shown.{one_fewer, blank_view};

    ghost both = { λ v w. one_fewer v };

    ghost spent = { blank_view };
}
