//! What may go from one thread to another, where the bus may. None of these functions does anything.
use crate::BoardSeat;
use deck_core::Bus;

fn is_send<T: Send>(_value: &T) {}

/// A pass with its board may be handed to another thread.
pub fn seat_is_send<B: Bus + Send>(seat: &BoardSeat<'_, B>) {
    is_send(seat);
}
