//! What a bus tells as words of 64 bits, for shared words that each hold one.
ghost use Rattle.std.specs.Prelude.{◌≡◌, ◌<◌, ◌==◌, ℕ, Bool, Option, length};
ghost use Rattle.deck_core.specs.plain.NoteWords.{flag_word, there_word, address_word, address_of, stage_number, stage_of, stage_word, master_word, late_word, session_of, note_words, notes_of, NotesAreReadBack};

use crate::{Notes, Sitting, Stage};
use mach_base::Hart;

/// How many words the notes take.
pub const NOTE_WORDS: usize = 16;

fn flag_word(flag: bool) -> u64
    ensures { result ≡ flag_word flag }
{
    if flag { 1 } else { 0 }
}

fn there_word(address: Option<u64>) -> u64
    ensures { result ≡ there_word address }
{
    match address {
        Some(_) => 1,
        None => 0,
    }
}

fn address_word(address: Option<u64>) -> u64
    ensures { result ≡ address_word address }
{
    match address {
        Some(address) => address,
        None => 0,
    }
}

fn address_of(there: u64, address: u64) -> Option<u64>
    ensures { result ≡ address_of there address }
{
    if there == 0 { None } else { Some(address) }
}

fn stage_number(stage: Stage) -> u64
    ensures { result ≡ stage_number stage }
{
    match stage {
        Stage::Lines => 1,
        Stage::Pass { again: false } => 2,
        Stage::Pass { again: true } => 3,
        Stage::Back => 4,
        Stage::Leaving => 5,
    }
}

fn stage_of(number: u64) -> Stage
    ensures { result ≡ stage_of number }
{
    if number == 1 {
        Stage::Lines
    } else if number == 2 {
        Stage::Pass { again: false }
    } else if number == 3 {
        Stage::Pass { again: true }
    } else if number == 4 {
        Stage::Back
    } else {
        Stage::Leaving
    }
}

/// The three words of a session: its stage's number, its master, and its late harts.
fn session_words(session: Option<Sitting>) -> (u64, u64, u64)
    ensures stage { result.0 ≡ stage_word session }
    ensures master { result.1 ≡ master_word session }
    ensures late { result.2 ≡ late_word session }
{
    match session {
        Some(sitting) => (
            stage_number(sitting.stage),
            u64::from(sitting.master.0),
            sitting.late,
        ),
        None => (0, 0, 0),
    }
}

fn session_of(number: u64, master: u64, late: u64) -> Option<Sitting>
    ensures { result ≡ session_of number master late }
{
    if number == 0 {
        None
    } else {
        Some(Sitting {
            master: Hart((master % 256) as u8),
            late,
            stage: stage_of(number),
        })
    }
}

impl Notes {
    /// The notes as words, one for each field, or as many as its parts.
    pub fn to_words(&self) -> [u64; NOTE_WORDS]
        ensures { result ≡ note_words self.now }
    {
        let (stage, master, late) = session_words(self.session);
        [
            self.planted,
            self.enabled,
            there_word(self.step),
            address_word(self.step),
            stage,
            master,
            late,
            self.lines,
            self.sends,
            flag_word(self.stepped),
            flag_word(self.over),
            self.traps,
            self.faults,
            there_word(self.next),
            address_word(self.next),
            flag_word(self.plantable),
        ]
    }

    /// The notes that these words mean.
    pub fn from_words(words: [u64; NOTE_WORDS]) -> Notes
        ensures { result ≡ notes_of words }
    {
        Notes {
            planted: words[0],
            enabled: words[1],
            step: address_of(words[2], words[3]),
            session: session_of(words[4], words[5], words[6]),
            lines: words[7],
            sends: words[8],
            stepped: words[9] != 0,
            over: words[10] != 0,
            traps: words[11],
            faults: words[12],
            next: address_of(words[13], words[14]),
            plantable: words[15] != 0,
        }
    }
}

/// The words of notes mean these notes. It does nothing.
#[tactic(auto, using(crate::proofs::NoteParts::notes_are_read_back))]
pub fn notes_are_read_back()
    ensures { NotesAreReadBack }
{}
