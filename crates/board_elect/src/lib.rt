//! The election of a master, the gate and the marks, over words that threads share; and a hart's pass as a deck.
//!
//! - Each *election step* (`want`, `try_master`, `shut`, `look`, `open_gate`, `clear`, `free`, `mark`, `see_gate`) is one
//!   atomic step on one word, and one tick of the hart whose pass makes it. It takes no memory and waits for nobody.
//! - A *mark* counts where it is 1, which says that its hart wants the prompt, or the number at which this master shut the
//!   gate (`Mark`).
//! - A *board seat* (`BoardSeat`) is a pass with the board, as a deck: the same program of a hart drives it and the pure
//!   deck.
//!
//! It stands on `board_turn`, whose rule each of the steps keeps. That a tick keeps the protocol's invariant is proved in
//! `deck_core`.
#![tactic(auto)]

mod deck;
mod found;
mod gate;
mod laws;
mod masters;
mod plays;
mod threads;

pub use deck::BoardSeat;
pub use found::Mark;
pub use gate::{look, mark, open_gate, see_gate, shut};
pub use laws::{
    clear_is_tick, free_is_tick, look_is_tick, lose_is_tick, mark_is_tick, open_gate_is_tick,
    see_gate_is_tick, shut_is_tick, try_is_tick, want_is_tick,
};
pub use masters::{Taken, clear, free, try_master, want};
pub use threads::seat_is_send;

#[cfg(test)]
mod tests;
