//! What a look finds.

/// What a look at another hart's own word found.
#[derive(Clone, Copy, Debug, PartialEq, Eq)]
pub enum Mark {
    /// The mark counts: the word is 1, or the number at which the gate is shut.
    Marked,
    /// It doesn't: the word that was found.
    Not { seen: u64 },
}
