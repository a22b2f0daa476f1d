//! The protocol by which harts elect a master, gather the others and enter the debugger, as a pure machine: it knows no
//! memory, no command and no thread.
//!
//! - A *bus* (`Bus`) is the machine that the harts share. One hart at a time may call it: the holder of the *turn*.
//! - A *transaction* is one call of the bus by the steps load, compare and exchange, call. A hart's `Place` is its place
//!   in one.
//! - A hart's *phase* (`Phase`) is what it does next. The phases from `Own` to `Free` are those of the *master*.
//! - The *gate* is a number, odd while it is shut. A hart that was called marks itself with the odd number that it saw,
//!   and waits until the gate has another one. The harts that the master didn't find marked are *late*.
//! - A *configuration* (specs/ticks/Configuration.antt) is the shared words, each hart's phase and place, and what the bus
//!   tells; a *tick* (specs/ticks/Tick.antt) is one hart's next step.
//! - The *invariant* is `Sound` of specs/Invariant.antt.
//!
//! What is proved: the opening configuration meets the invariant, and each tick of each hart, in each phase and with every
//! bus that keeps its contract, keeps it (`laws`). So does every list of ticks. From the invariant follow the condition
//! of each call of the bus, that at most one hart is in a master's phase, that no hart runs which the session has stopped,
//! that sessions never overlap, and that the gate's number stays small (`facts`). The calls of the pure deck (`Flat`) are
//! exactly the ticks of the selected hart. Nothing is claimed of progress: that a gathering finds every hart, or that a
//! hart ever gets the turn.
//!
//! It stands on `mach_base`. `hart_prog` stands on it, and `board_turn`, where the words are shared by threads.
#![tactic(auto)]

mod contract;
mod decks;
mod laws;
mod pause;
mod plain;
mod ticks;

pub use contract::bus::Bus;
pub use contract::calls::{call, is_idle};
pub use decks::deck::Deck;
pub use decks::flat::Flat;
pub use laws::facts::{
    call_is_allowed, gate_is_bounded, gone_trap_drops, one_master, opening_is_sound, runs_unmasked,
    sessions_never_overlap, shut_before,
};
pub use laws::keeps::{
    called_keeps, close_keeps, drop_keeps, enter_keeps, every_plan_keeps, every_tick_keeps,
    finished_keeps, finished_leaves, free_keeps, gather_keeps, give_keeps, lines_keeps, mark_keeps,
    open_gate_keeps, own_keeps, parked_keeps, pass_step_keeps, peek_keeps, plant_keeps,
    plant_step_keeps, pull_keeps, pull_step_keeps, run_keeps, send_keeps, shut_keeps, take_keeps,
    unmark_keeps, want_keeps, wish_keeps,
};
pub use laws::ranges::{answers_go_on, can_go_on_now, gate_goes_on, looks_go_on, shut_goes_on};
pub use laws::runs::{
    ExactBus, GrowingBus, gone_trap_goes_back, late_were_missed, runs_are_exact, runs_are_ticks,
    runs_grow,
};
pub use pause::{Counted, Pause};
pub use plain::act::{Act, Answer, Entered, Lined, Passed, Turned};
pub use plain::note_words::{NOTE_WORDS, notes_are_read_back};
pub use plain::notes::{Notes, Sitting, Stage};
pub use plain::phase::{Kept, Looks, Phase, Place, Then};
pub use plain::words::{SEATS, Words, holder_of, is_busy, is_in_session, mask_of, turn_word};
pub use ticks::next_phase::{
    act_of, after_answer, after_clear, after_gate, after_look, after_shut, is_transaction,
};

#[cfg(test)]
mod tests;
