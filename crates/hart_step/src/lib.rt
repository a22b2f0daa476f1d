//! The execution of one instruction: its fault, the pc after it, and all that it changes.
//!
//! - A *word* is the four bytes at a hart's pc. None of the calls fetches it: the caller gives it.
//! - The *class* of an operation says how it takes its operands: which jump, load, store, compute or ask the firmware.
//! - A *fault* is why the word can't be executed: it is no instruction, or the instruction's own fault (docs/machine.md,
//!   "Faults"). A word that faults changes nothing.
//! - The *next pc* is where the hart goes on after the word.
//! - A *granule* is 8 aligned bytes. A store ends the reservations of other harts on its granule.
//!
//! `specs/Execution.antt` has the whole effect. It uses the decoder, the arithmetic, memory and the firmware; the atomic
//! machine uses it.
#![tactic(auto)]

mod class;
mod control;
mod execution;
mod fault;
mod laws;
mod operands;
#[cfg(test)]
mod tests;

pub use control::{After, next};
pub use execution::{Did, exec};
pub use fault::fault_of;
pub use laws::{
    execution_keeps_others, execution_keeps_text, execution_leads_to_next, interrupt_keeps_others,
};
