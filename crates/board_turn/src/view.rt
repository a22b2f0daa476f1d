//! What a hart's seat at the board knows, and what lies in the board's slot.
use deck_core::{Answer, Notes, Phase, Place};
use mach_base::Hart;

/// Where a hart stands.
#[derive(Clone, Copy, Debug, PartialEq, Eq)]
pub struct Standing {
    /// The hart's number.
    pub hart: Hart,
    /// The number of harts, from 1 to `MASK_HARTS`.
    pub harts: u8,
    /// The number of rounds after which a gathering ends.
    pub limit: u32,
    /// What the hart does next, with what it keeps for that.
    pub phase: Phase,
    /// Its place in a transaction.
    pub place: Place,
    /// The number at which the hart shut the gate, from the shutting to the opening.
    pub gate: u64,
    /// How many passes were made, where the hart is 0.
    pub made: u8,
}

/// What a seat knows. No value of it is made: it exists in proofs alone.
pub struct View<B> {
    /// Where the hart stands.
    pub at: Standing,
    /// The bus that the board was made with.
    pub start: Option<B>,
    /// Whether the seat is a hart's; a seat that was joined to another isn't any more.
    pub live: bool,
    /// Of hart 0: the number of the hart from which on the seats were joined.
    pub left: u64,
    /// While the hart holds the turn: the mask of the stopped harts, and what else the bus told when the turn was taken.
    pub mask: u64,
    pub notes: Notes,
    /// While the hart holds the turn: the notes that it has stored so far. A clause reads an array as a list.
    pub stored: [u64; 0],
}

/// What lies in the slot: the bus, and the answer of its last call.
#[derive(Drop)]
pub struct Slot<B> {
    pub bus: B,
    pub last: Answer,
}
