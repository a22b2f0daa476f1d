//! What each election step tells the hart that makes it. These types are for the proofs alone.
ghost use Rattle.board_elect.specs.Plays.{Moves, Shuts, Tries, after_want, after_freeing, after_clearing, after_shutting, after_looking, after_opening, after_seeing, after_marking};

use atomic_table::Play;
use board_turn::{Slot, View};
use deck_core::Bus;

/// The store of 1 to the hart's own word.
pub(crate) struct Want;

impl<B: Bus> Play<Option<Slot<B>>, View<B>> for Want {
    ghost then = { Moves after_want };
}

/// The compare and exchange of the master word.
pub(crate) struct TryMaster;

impl<B: Bus> Play<Option<Slot<B>>, View<B>> for TryMaster {
    ghost then = { Tries };
}

/// The store of 0 to the hart's own word.
pub(crate) struct Clear;

impl<B: Bus> Play<Option<Slot<B>>, View<B>> for Clear {
    ghost then = { Moves after_clearing };
}

/// The store of 0 to the master word.
pub(crate) struct Free;

impl<B: Bus> Play<Option<Slot<B>>, View<B>> for Free {
    ghost then = { Moves after_freeing };
}

/// The adding of 1 to the gate's number that shuts it.
pub(crate) struct Shut;

impl<B: Bus> Play<Option<Slot<B>>, View<B>> for Shut {
    ghost then = { Shuts };
}

/// The load of another hart's own word.
pub(crate) struct Look;

impl<B: Bus> Play<Option<Slot<B>>, View<B>> for Look {
    ghost then = { Moves after_looking };
}

/// The adding of 1 to the gate's number that opens it.
pub(crate) struct OpenGate;

impl<B: Bus> Play<Option<Slot<B>>, View<B>> for OpenGate {
    ghost then = { Moves after_opening };
}

/// The load of the gate's number.
pub(crate) struct SeeGate;

impl<B: Bus> Play<Option<Slot<B>>, View<B>> for SeeGate {
    ghost then = { Moves after_seeing };
}

/// The store of the gate's number to the hart's own word.
pub(crate) struct MarkSelf;

impl<B: Bus> Play<Option<Slot<B>>, View<B>> for MarkSelf {
    ghost then = { Moves after_marking };
}
