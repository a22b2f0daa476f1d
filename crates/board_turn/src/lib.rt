//! The protocol of the harts over words that threads share: the board, and the turn of its bus.
//!
//! - The *board* (`Board`) has the shared words, and one *slot* that holds the bus. Every word changes in single atomic
//!   steps; the slot is read and written by the holder of the turn alone.
//! - A *pass* (`Pass`) is a hart's seat at the board: the right to make that hart's steps. It says where the hart stands
//!   (`Standing`). Its *view* (`View`) is the same for the proofs, with what the hart knows besides.
//! - The *notes* are words that say what the bus tells, so that a step can learn it from a word. They are those of the bus
//!   whenever nobody holds the turn.
//! - What the board *shows* (`shown` of specs/Shown.antt) is a configuration of the protocol. The *rule* (`Ruled` of
//!   specs/Rule.antt) says that it meets the protocol's invariant, between any two steps, whoever makes them.
//! - A *play* is what one kind of step tells the hart that makes it (specs/Plays.antt).
//!
//! It stands on `deck_core`, which says what a tick is and proves that each keeps the invariant, and on `atomic_table`.
//! `board_elect` stands on it.
#![tactic(auto)]

mod board;
mod laws;
mod notes;
mod plays;
mod seats;
#[cfg(test)]
mod tests;
mod threads;
mod turn;
mod view;
mod words;

pub use board::{Board, Busy, Held, Key, Pass, Rule, Seated};
pub use laws::{
    give_is_tick, join_shows_run, miss_is_tick, peek_is_tick, split_shows_nothing,
    store_shows_nothing, take_is_tick,
};
pub use threads::{board_is_shared, pass_is_send};
pub use view::{Slot, Standing, View};
pub use words::{GATE, MASTER, NOTES, OWN, TURN, WORDS};
