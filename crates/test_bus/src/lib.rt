//! Buses for the tests of the protocol's crates, and what two of those tests share.
//!
//! - `SmallBus` has two harts, and a script of four lines. Its first line enables a breakpoint place, the second asks for a
//!   single-step pass, the third and the fourth leave the session. Hart 0 has a trap again after the third. Once all lines
//!   are read, the next `hart_step` is its end.
//! - `EndingBus` has one hart, whose first step is its end. Its calls are a function of whether it has come to it.
//! - `OLD_MARK` is a table of ticks on a small bus: the time line of docs/protocol.md, with the whole of both its sessions.
//!
//! It stands on `deck_core`, and only tests stand on it.
#![tactic(auto)]

mod ending;
mod quiet;
mod scripted;
#[cfg(test)]
mod tests;
mod time_line;

pub use ending::{EndingBus, ending_bus};
pub use scripted::{STEP, SmallBus, small_bus};
pub use time_line::{FIRST_LOOK, NOBODY, OLD_MARK, Row, SECOND_LOOK, TO_THE_OLD_MARK};
