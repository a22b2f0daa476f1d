//! The program of a hart: the loop body by which a hart follows the protocol, over whatever stands for the shared words.
//!
//! - A *program* (`Prog`) knows where its hart stands: its phase, and how far it is in a transaction.
//! - It *advances* (`Prog::advance`) by one tick on a `Deck`, the hart's calls on the shared words: the pure deck, or a
//!   hart's seat on words that threads share.
//! - A *plan* is a list of harts; each makes one tick in its turn (`run_plan`).
//!
//! It stands on `deck_core`, which says what a tick is.
#![tactic(auto)]

mod plan;
mod prog;
mod progress;

pub use plan::{programs, run_plan};
pub use prog::Prog;
pub use progress::{At, Progress};

#[cfg(test)]
mod tests;
