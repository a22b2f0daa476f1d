//! The ways in which the planted machine runs: the entries of a journal once more, and a plan's order of the harts; and what
//! a run leaves behind.
//!
//! - A *record* of a run is its journal, how it ended and its transcript: a legal journal, which reads as a run of the atomic
//!   machine with just this transcript (`IsRecord` of specs/Record.antt).
//! - To *replay* is to make the entries of a journal, each if it is legal.
//! - *Lockstep* is a run in which the harts tick in the order of a plan, over the pure deck; in a *run of threads* each hart
//!   has a worker thread, over words that the threads share.
//!
//! It stands on the core and its bus; the commands stand on it.
#![tactic(auto)]

mod lockstep;
mod record;
mod replays;
#[cfg(test)]
mod tests;
#[cfg(test)]
mod tests_on_a_board;
mod threads;

pub use lockstep::{Pace, run_plan_of};
pub use record::{Told, record_of, write_record};
pub use replays::{ReplayFault, replay};
pub use threads::run_threads;
