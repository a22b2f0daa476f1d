//! What every crate of kdbsim speaks of: numbers, texts, events, and the two traits through which the debugger sees
//! a machine.
//!
//! - A *hart* is a hardware thread of the simulated RISC-V machine, numbered from 0.
//! - A *fault* is the reason why an instruction can't be executed, with the address, word or number that is at fault.
//! - A *session* is the time from a hart's entry into the debugger to its leaving; its *reason* is the trap that opened it.
//! - A *line* of a text ends by a line feed, the *words* of a line stand between blanks and tabs (`specs/Lines.antt`).
//! - An *entry* is one event of the machine, as a journal lists it.
//! - A *segment* is a range of memory with one kind of contents.
//! - The *machine record* of `specs/Machine.antt` is the state that commands, steps and journals speak of.
//!
//! It stands on std alone, and every other crate stands on it.
#![tactic(auto)]

mod byte_text;
mod event;
mod limits;
mod lines;
mod masks;
mod memory_range;
mod number;
mod packed;
mod printed;
mod seen_by_kdb;

pub use byte_text::{OutOfMemory, Text};
pub use event::{Cause, Ending, Entry, Fault, Hart, Reason, What};
pub use limits::{
    ELF_BYTES, IMAGE_BYTES, JOURNAL_BYTES, LINE_BYTES, MACRO_LINES, MAP_BYTES, MASK_HARTS,
    MOST_ENTRIES, MOST_HARTS, MOST_LINES, MOST_MACROS, MOST_MEMORY, MOST_ROUNDS, MOST_SEGMENTS,
    MOST_STEPS, MOST_SYMBOLS, MOST_TICKS, MOST_VARIABLES, PLACES, PLAN_BYTES, SCRIPT_BYTES,
    SOURCE_BYTES, SYMBOL_BYTES,
};
pub use lines::{is_blank, is_header_of, next_line, next_word};
pub use masks::{all_but, has_bit, least, least_outside, mask_with, mask_without, without_least};
pub use memory_range::{Kind, Segment};
pub use number::{NumFault, parse_number, push_dec, push_hex, put_dec, put_hex};
pub use packed::{Packed, PackedIter};
pub use printed::{push_address, push_bytes, push_newline, put_address, put_bytes};
pub use seen_by_kdb::{Names, Peek};
