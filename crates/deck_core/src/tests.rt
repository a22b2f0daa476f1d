//! The plain functions, on values of docs/protocol.md.
use crate::{
    Act, Answer, Counted, Kept, Lined, Looks, Notes, Pause, Phase, Sitting, Stage, act_of,
    after_answer, after_clear, after_gate, after_look, after_shut, holder_of, is_busy,
    is_in_session, is_transaction, mask_of, turn_word,
};
use mach_base::Hart;

const MASTER: Hart = Hart(1);

const KEPT: Kept = Kept { late: 4 };

const LINES: Phase = Phase::Lines { kept: KEPT };

/// The mask 5, and hart 1 as the holder.
const TURN: u64 = 0x2_0000_0005;

#[test]
fn a_turn_has_a_mask_and_a_holder(rt: HostRuntime) {
    assert_eq!(rt; turn_word(5, Hart(1)), TURN);
    assert_eq!(rt; mask_of(TURN), 5);
    assert_eq!(rt; holder_of(TURN), 2);
}

#[test]
fn a_turn_is_busy_for_others_and_for_the_masked(rt: HostRuntime) {
    assert!(rt; is_busy(Hart(3), Phase::Run, TURN));
    assert!(rt; is_busy(Hart(0), Phase::Run, 5));
    assert!(rt; !is_busy(Hart(1), Phase::Run, 5));
}

#[test]
fn pauses_are_counted_on_their_copy(rt: HostRuntime) {
    let mut pause = Counted::new();
    let copy = pause;
    pause.pause(MASTER);
    assert_eq!(rt; pause.calls(), 1);
    assert_eq!(rt; copy.calls(), 0);
}

#[test]
fn lines_are_a_transaction_in_a_session(rt: HostRuntime) {
    assert!(rt; is_transaction(LINES));
    assert!(rt; is_in_session(LINES));
    assert!(rt; !is_transaction(Phase::Shut));
}

#[test]
fn a_line_is_called_and_leads_to_lines(rt: HostRuntime) {
    assert!(rt; act_of(MASTER, LINES) == Act::Line(MASTER));
    assert!(rt; after_answer(4, MASTER, LINES, Answer::Line(Lined::Stay)) == LINES);
}

#[test]
fn steps_without_a_call_lead_on(rt: HostRuntime) {
    assert!(rt; after_shut(4, MASTER) == Phase::Send { to: 0 });
    assert!(rt; after_gate(Phase::Called, 3) == Phase::Mark { gate: 3 });
    assert!(rt; after_clear(Phase::Drop) == Phase::Free);
}

/// The second of two rounds, in which hart 2 alone is looked at.
const LOOKS: Looks = Looks {
    rounds: 1,
    next: 2,
    gathered: 0b1001,
};

#[test]
fn the_last_look_opens_the_session(rt: HostRuntime) {
    let enter = Phase::Enter {
        kept: KEPT,
        reopens: false,
    };
    assert!(rt; after_look(2, 4, MASTER, LOOKS, false) == enter);
}

/// A session in its single-step pass.
const NOTES: Notes = Notes {
    planted: 8,
    enabled: 9,
    step: Some(0x1004),
    session: Some(Sitting {
        master: MASTER,
        late: 4,
        stage: Stage::Pass { again: true },
    }),
    lines: 2,
    sends: 3,
    stepped: true,
    over: false,
    traps: 2,
    faults: 0,
    next: None,
    plantable: true,
};

/// The same as words.
const WORDS: [u64; 16] = [8, 9, 1, 0x1004, 3, 1, 4, 2, 3, 1, 0, 2, 0, 0, 0, 1];

#[test]
fn notes_are_written_as_words(rt: HostRuntime) {
    let words = NOTES.to_words();
    assert!(rt; words == WORDS);
}

#[test]
fn notes_are_read_from_words(rt: HostRuntime) {
    assert!(rt; Notes::from_words(WORDS) == NOTES);
}
