//! The notes, which the holder of the turn loads and stores one by one.
ghost use Rattle.std.specs.Prelude.{◌≡◌, [], true, length};
ghost use Rattle.deck_core.specs.plain.NoteWords.{note_words};
ghost use Rattle.deck_core.specs.ticks.Phases.{holds};
ghost use Rattle.board_turn.specs.Plays.{with_stored};

use crate::plays::{LoadNote, StoreNote};
use crate::{Board, NOTES, Slot, View};
use atomic_table::Seat;
use deck_core::{Bus, NOTE_WORDS};

impl<B: Bus> Board<B> {
    /// Loads all notes. They are what the seat's view keeps.
    pub(crate) fn load_notes(&self, seat: &mut Seat<Option<Slot<B>>, View<B>>) -> [u64; NOTE_WORDS]
        requires table { seat.old.table_id ≡ self.now.table.shared.table_id }
        requires live { seat.old.me.0.live ≡ true }
        requires holder { holds seat.old.me.0.at.place ≡ true }
        requires none_stored { seat.old.me.0.stored ≡ [] }
        ensures notes { result ≡ note_words seat.old.me.0.notes }
        ensures table { seat.new.table_id ≡ seat.old.table_id }
        ensures same { seat.new.me ≡ seat.old.me }
    {
        let mut notes = [0; NOTE_WORDS];
        for k in 0..NOTE_WORDS {
            notes[k] = self.table.shared.load::<LoadNote>(seat, NOTES + k);
        }
        notes
    }

    /// Stores all notes.
    pub(crate) fn store_notes(
        &self,
        seat: &mut Seat<Option<Slot<B>>, View<B>>,
        notes: [u64; NOTE_WORDS],
    )
        requires table { seat.old.table_id ≡ self.now.table.shared.table_id }
        requires live { seat.old.me.0.live ≡ true }
        requires holder { holds seat.old.me.0.at.place ≡ true }
        requires none_stored { seat.old.me.0.stored ≡ [] }
        ensures table { seat.new.table_id ≡ seat.old.table_id }
        ensures stored { seat.new.me ≡ with_stored notes seat.old.me }
    {
        for k in 0..notes.len() {
            self.table
                .shared
                .store::<StoreNote>(seat, NOTES + k, notes[k]);
        }
    }
}
