//! The gate and the marks.
ghost use Rattle.std.specs.Prelude.{◌≡◌, ◌≢◌, ◌==◌, ◌||◌, ◌+◌, Bool, IsTrue, false, true};
ghost use Rattle.deck_core.specs.decks.Seat.{is_gather, looks_in, sees_gate};
ghost use Rattle.deck_core.specs.ticks.NextPhase.{after_gate, after_look, after_shut};
ghost use Rattle.deck_core.specs.declared.plain.phase.Phase.{Phase};
ghost use Rattle.deck_core.specs.declared.plain.phase.Phase.TheVariants as phase;
ghost use Rattle.board_turn.specs.Ready.{IsReady, start_of};
ghost use Rattle.board_elect.specs.Plays.{is_counted, to_phase};
ghost use Rattle.board_elect.specs.Marks.{is_marked, MarkSays};

use crate::found::Mark;
use crate::plays;
use board_turn::{Board, GATE, OWN, Pass, Standing};
use deck_core::{Bus, Phase, after_gate, after_look, after_shut};
use mach_base::Hart;

/// Whether a mark counts for the hart that shut the gate.
fn is_counted(at: Standing, word: u64) -> bool
    ensures { result ≡ is_counted at word }
{
    word == 1 || word == at.gate
}

/// Shuts the gate: its number grows by 1, to an odd one, which the pass keeps.
pub fn shut<B: Bus>(board: &Board<B>, pass: &mut Pass<B>)
    requires ready { IsReady board.now.table.shared.table_id pass.old }
    requires phase { pass.old.stand.phase ≡ phase.Shut }
    ensures stand { pass.new.stand ≡ record (pass.old.stand) { phase = after_shut pass.old.stand.harts pass.old.stand.hart.0; gate = pass.new.stand.gate } }
    ensures ready { IsReady board.now.table.shared.table_id pass.new }
    ensures start { start_of pass.new ≡ start_of pass.old }
{
    let words = &board.table.shared;
    let found = words.fetch_add::<plays::Shut>(&mut pass.seat, GATE, 1);
    pass.stand.phase = after_shut(pass.stand.harts, pass.stand.hart);
    pass.stand.gate = found + 1;
}

/// Looks at the own word of the hart that is next. `Marked` exactly where it is 1 or the gate's number.
pub fn look<B: Bus>(board: &Board<B>, pass: &mut Pass<B>, k: Hart) -> Mark
    requires ready { IsReady board.now.table.shared.table_id pass.old }
    requires phase { IsTrue (is_gather pass.old.stand.phase) }
    requires next { k.0 ≡ (looks_in pass.old.stand.phase).next }
    ensures says { MarkSays pass.old.stand result }
    ensures stand { pass.new.stand ≡ to_phase (after_look pass.old.stand.limit pass.old.stand.harts pass.old.stand.hart.0 (looks_in pass.old.stand.phase) (is_marked result)) pass.old.stand }
    ensures ready { IsReady board.now.table.shared.table_id pass.new }
    ensures start { start_of pass.new ≡ start_of pass.old }
{
    let at = pass.stand;
    match at.phase {
        Phase::Gather { looks } => {
            let word = OWN + k.0 as usize;
            let seen = board.table.shared.load::<plays::Look>(&mut pass.seat, word);
            let counts = is_counted(at, seen);
            pass.stand.phase = after_look(at.limit, at.harts, at.hart, looks, counts);
            if counts {
                Mark::Marked
            } else {
                Mark::Not { seen }
            }
        }
        _ => unreachable!(),
    }
}

/// Opens the gate: its number grows by 1, to an even one.
pub fn open_gate<B: Bus>(board: &Board<B>, pass: &mut Pass<B>)
    requires ready { IsReady board.now.table.shared.table_id pass.old }
    requires phase { pass.old.stand.phase ≡ phase.OpenGate }
    ensures stand { pass.new.stand ≡ to_phase phase.Drop pass.old.stand }
    ensures ready { IsReady board.now.table.shared.table_id pass.new }
    ensures start { start_of pass.new ≡ start_of pass.old }
{
    let words = &board.table.shared;
    words.fetch_add::<plays::OpenGate>(&mut pass.seat, GATE, 1);
    pass.stand.phase = Phase::Drop;
}

/// Loads the gate's number, after a call or while the hart is parked.
pub fn see_gate<B: Bus>(board: &Board<B>, pass: &mut Pass<B>) -> u64
    requires ready { IsReady board.now.table.shared.table_id pass.old }
    requires phase { IsTrue (sees_gate pass.old.stand.phase) }
    ensures stand { pass.new.stand ≡ to_phase (after_gate pass.old.stand.phase result) pass.old.stand }
    ensures ready { IsReady board.now.table.shared.table_id pass.new }
    ensures start { start_of pass.new ≡ start_of pass.old }
{
    let words = &board.table.shared;
    let gate = words.load::<plays::SeeGate>(&mut pass.seat, GATE);
    pass.stand.phase = after_gate(pass.stand.phase, gate);
    gate
}

/// Marks the hart with the number at which it saw the gate shut.
pub fn mark<B: Bus>(board: &Board<B>, pass: &mut Pass<B>, gate: u64)
    requires ready { IsReady board.now.table.shared.table_id pass.old }
    requires phase { pass.old.stand.phase ≡ phase.Mark gate }
    ensures stand { pass.new.stand ≡ to_phase (phase.Parked gate) pass.old.stand }
    ensures ready { IsReady board.now.table.shared.table_id pass.new }
    ensures start { start_of pass.new ≡ start_of pass.old }
{
    let own = OWN + pass.stand.hart.0 as usize;
    let words = &board.table.shared;
    words.store::<plays::MarkSelf>(&mut pass.seat, own, gate);
    pass.stand.phase = Phase::Parked { gate };
}
