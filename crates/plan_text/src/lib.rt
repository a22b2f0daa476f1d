//! Plans: the order in which the harts of a run make their ticks, and the plan files that say it.
//!
//! - A *tick* is one step of a hart's program; a plan names a hart for each.
//! - A *run* of ticks is what one line of a plan file says: a list of harts, and how many times the list is gone through.
//! - `specs/Ticks.antt` has the ticks of runs, `specs/Grammar.antt` which lines of a plan file are right and which run each
//!   says, `specs/Reading.antt` what reading a plan file gives; the laws say that both agree.
//!
//! docs/formats.md has the grammar. It stands on mach_base, and the command that runs the harts in a given order stands on
//! it.
#![tactic(auto)]

mod fault;
mod laws;
mod line;
mod plan;
mod reading;
mod run;
#[cfg(test)]
mod tests;
mod ticks;

pub use fault::PlanFault;
pub use laws::{a_plan_counts_its_ticks, a_plan_gives_its_runs, a_plan_names_its_first_bad_line};
pub use plan::{Plan, read_plan};
pub use ticks::Ticks;
