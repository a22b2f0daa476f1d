//! The run of the input that a number says, and the line that tells of it.
//!
//! - The *input* of a number is its image, its script and its plan, as `gen_load` gives them.
//! - Its *run* is that of lockstep: the ticks of the plan from the start, with no symbols (`IsLoad` of specs/Load.antt).
//! - What is *told* of a run is its ending, and how many steps, sessions, entries and late harts it had.
//!
//! It stands on the generated input, on the bus and on the records of runs.
#![tactic(auto)]

mod counts;
mod inputs;
mod run;
#[cfg(test)]
mod tests;
mod told;

pub use run::run_load;
pub use told::{LoadTold, ROUNDS, push_load_line};
