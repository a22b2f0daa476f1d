//! The board and the passes.
ghost use Rattle.std.specs.Prelude.{◌≡◌};
ghost use Rattle.board_turn.specs.declared.words.TheConstants.{WORDS};

use crate::{Slot, Standing, View};
use atomic_table::{Seat, Table, TableRule};
use deck_core::{Bus, NOTE_WORDS};
use std::alloc::Global;
use std::marker::PhantomData;
use std::snapshot::Snapshot;

/// What the board is told once, when it is made: the bus that it is made with, the number of harts, and that of rounds.
#[derive(Drop)]
pub struct Key<B> {
    pub start: Snapshot<B>,
    pub harts: u8,
    pub limit: u32,
}

/// The rule of a board.
pub struct Rule<B> {
    bus: PhantomData<B>,
}

impl<B: Bus> TableRule<Option<Slot<B>>, View<B>, Key<B>> for Rule<B> {
    ghost use Rattle.board_turn.specs.Rule.{Ruled};
    ghost use Rattle.board_turn.specs.Shown.{first_view};

    ghost holds = { λ _. Ruled B.told B.SameOrigin };

    ghost first = { λ key. first_view key.start.value key.harts key.limit };
}

/// The words that the harts share, and the bus behind the turn.
#[derive(Drop)]
pub struct Board<B: Bus> {
    pub table: Table<Option<Slot<B>>, View<B>, Key<B>, Rule<B>, Global>,
    ghost all_words: { table.shared.table_id.words ≡ WORDS },
    ghost one_slot: { table.shared.table_id.slots ≡ 1 },
}

/// A hart's seat at the board: the right to make that hart's steps.
#[derive(Drop)]
pub struct Pass<B> {
    pub stand: Standing,
    pub seat: Seat<Option<Slot<B>>, View<B>>,
}

/// A new board, and the pass of hart 0.
#[derive(Drop)]
pub struct Seated<B: Bus> {
    pub board: Board<B>,
    pub first: Pass<B>,
}

/// The bus out of its place, and its notes as they were loaded. It is for the hart that holds the turn, and has no
/// call of its own: the bus is called by `give` alone.
#[derive(Drop)]
pub struct Held<B> {
    pub(crate) bus: B,
    pub(crate) notes: [u64; NOTE_WORDS],
}

/// The turn could not be had: the word that was found.
#[derive(Clone, Copy, Debug, PartialEq, Eq)]
pub struct Busy {
    /// The turn word. It has a holder, or it stops the hart, which is no master in a session, or it isn't the word that the
    /// hart saw before.
    pub seen: u64,
}
