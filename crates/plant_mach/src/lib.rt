//! The planted machine: harts over one memory, in which each enabled breakpoint is a word of `ebreak`, and where every
//! change is an *entry* of a journal.
//!
//! - The *planted machine* (`PlantedMachine` of specs/Machine.antt) is the atomic machine's record over true memory, with
//!   the planted words, pending calls of harts, the open session and the ending.
//! - An *entry* is *legal* where `makes` of specs/Entries.antt says so; it says too what the entry prints and changes. A
//!   list of entries is legal where each is legal after those before it.
//! - A session has a *stage*: its lines are read; a single-step pass, where its master owes one instruction; back from it;
//!   or leaving. It *holds* every hart but its late ones.
//! - The *reading* (`reading` of specs/Reading.antt) of a legal list is a run of the atomic machine, in which a session
//!   with no late harts is one step: same state, same text.
//!
//! docs/planted.md has the rules, and a session entry by entry. It stands on the atomic machine (`atom_mach`) and on
//! planted memory (`bus_plant`); the machine that runs the entries stands on it. There is no code here: its calls do
//! nothing, and their contracts are the laws.
#![tactic(auto)]

mod laws;

pub use laws::{
    entries_keep, entries_keep_order, entries_leave_others, legal_lists_are_runs, lists_join,
    never_legal, starts_are_orderly,
};
