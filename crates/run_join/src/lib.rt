//! A run: each hart's program in a thread of its own, over words that threads share.
//!
//! - A *worker* is a thread that makes the ticks of one hart, from the hart's first to its last, and pauses where the hart
//!   can't go on (`Pause`).
//! - A *run* (`run_all`) makes the passes of all harts, has a worker for each, and takes the bus off the board when every
//!   hart has seen an ending.
//!
//! Memory is taken before the first worker starts; no worker takes any. A worker reaches the bus by the calls of its pass
//! alone.
//!
//! It stands on `board_elect`, whose `BoardSeat` is the deck of a hart on shared words, and on `hart_prog`, the program that
//! drives a deck. The program that runs harts beside each other stands on it.
#![tactic(auto)]

mod passes;
mod pause;
mod run;
#[cfg(test)]
mod tests;
mod worker;
mod workers;

pub use pause::Millisecond;
pub use run::run_all;
