//! Memory in which words of text can be replaced by `ebreak` for a while.
//!
//! - A word is *planted* where `ebreak` is written over it. A breakpoint place can be planted at one address; besides there
//!   can be one *step word*.
//! - *Raw memory* is what the bytes are, with `ebreak` in the planted words; *true memory* has the words that were there
//!   before. Contracts see a `Planted` as true memory with the addresses of the planted words, from which raw memory
//!   follows, and with the marks of raw memory's pages (`specs/Planted.antt`).
//! - To *plant* a word and to *pull* it leave true memory as it is. Instructions are executed on raw memory; text is neither
//!   loaded nor stored, so their effect is that on true memory (`specs/Laws.antt`).
//!
//! docs/planted.md has the rules. It uses the execution of `hart_step`; the machine whose breakpoints are planted uses it.
#![tactic(auto)]

mod laws;
mod planted;
mod saved;
mod words;

pub use laws::{
    planted_words_stay_text, raw_memory_has_ebreak_where_planted, raw_memory_is_seen_as_true_memory,
};
pub use planted::Planted;
