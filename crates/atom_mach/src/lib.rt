//! The atomic machine: harts over one memory, where each session happens at once. What a run means and what it prints
//! is said here; the program with one hart prints just that.
//!
//! - A *step* (`AStep`) is one change of the machine: a hart executes an instruction or takes its interrupt, a session
//!   is held, or the run ends. `does` of specs/Step.antt says in which states a step is allowed, and what it does then.
//! - A *trap* is what stops a hart before its instruction: the start of the run, a breakpoint, an `ebreak` of the image,
//!   or a fault.
//! - In a *session* the trapped hart, its *master*, prints a banner and reads lines of the script, each at a prompt, until
//!   a line lets the machine go on or the script is at its end. *Late* harts still run beside it.
//! - The *mode* (`Mode`) says what the machine is about: free; in a session with late harts; in a single-step *pass*, where
//!   the master owes the one instruction that it stopped at; *back* from it, where the session opens again; *leaving* a
//!   session with late harts, which is to close; or over.
//! - A *cut* of a session is its banner and its first lines (specs/Session.antt).
//! - A *turn* is the first step that a machine with one hart may make. A *run* is a list of steps; its *transcript* is
//!   all that they print, with the line that says how the run ended.
//!
//! The files go from the script and the texts over what stops a hart (`traps`) to the machine from the inside (`machine`
//! and its folder), the machine from the outside (`atom`), and the laws. It stands on one instruction (`hart_step`), the
//! firmware (`trap_ipi`), one line of the debugger (`kdb_cmd`) and the image (`img_text`); `kdbsim_top` stands on it.
#![tactic(auto)]

mod atom;
mod laws;
mod machine;
mod script;
mod step;
#[cfg(test)]
mod tests;
mod texts;
mod traps;

pub use atom::Atom;
pub use laws::{
    banners_are_short, cuts_grow_to_sessions, gathered_harts_stand,
    late_sessions_keep_gathered_harts, nothing_after_the_end, ruled_runs_are_unique, runs_join,
    runs_keep_the_limits, steps_keep, steps_leave_others,
};
pub use script::{Script, ScriptFault, check_script};
pub use step::{AStep, Mode, StepFault};
pub use texts::{BANNER_BYTES, push_ending_line, put_banner, put_last_prompt, put_prompt};
pub use traps::{fault_of_fetched, late_trap_of, next_of_fetched, trap_of};
