//! What may go from one thread to another, where the bus may. None of these functions does anything.
use crate::{Board, Pass};
use deck_core::Bus;

fn is_send<T: Send>(_value: &T) {}

fn is_sync<T: Sync>(_value: &T) {}

/// Threads may share a board, and hand it on.
pub fn board_is_shared<B: Bus + Send>(board: &Board<B>) {
    is_send(board);
    is_sync(board);
}

/// A pass may be handed to another thread.
pub fn pass_is_send<B: Bus + Send>(pass: &Pass<B>) {
    is_send(pass);
}
