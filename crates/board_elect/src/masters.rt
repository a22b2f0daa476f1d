//! The election: the steps on the hart's own word and on the master word.
ghost use Rattle.std.specs.Prelude.{◌≡◌, ◌<◌, IfErr, IfOk, IsTrue};
ghost use Rattle.deck_core.specs.decks.Seat.{clears};
ghost use Rattle.deck_core.specs.ticks.NextPhase.{after_clear};
ghost use Rattle.deck_core.specs.declared.plain.phase.Phase.TheVariants.{Free, Own, Run, Want, Wish};
ghost use Rattle.board_turn.specs.Ready.{IsReady, start_of};
ghost use Rattle.board_elect.specs.Plays.{to_phase};

use crate::plays;
use board_turn::{Board, MASTER, OWN, Pass};
use deck_core::{Bus, Phase, after_clear};
use mach_base::Hart;

/// There is a master: the word found says this hart.
#[derive(Clone, Copy, Debug, PartialEq, Eq)]
pub struct Taken {
    pub by: Hart,
}

/// Says in the hart's own word that it wants the prompt.
pub fn want<B: Bus>(board: &Board<B>, pass: &mut Pass<B>)
    requires ready { IsReady board.now.table.shared.table_id pass.old }
    requires phase { pass.old.stand.phase ≡ Wish }
    ensures stand { pass.new.stand ≡ to_phase Want pass.old.stand }
    ensures ready { IsReady board.now.table.shared.table_id pass.new }
    ensures start { start_of pass.new ≡ start_of pass.old }
{
    let own = OWN + pass.stand.hart.0 as usize;
    let words = &board.table.shared;
    words.store::<plays::Want>(&mut pass.seat, own, 1);
    pass.stand.phase = Phase::Want;
}

/// Tries to become the master. Where there is one, the answer has the hart that the word found says, and this hart stays where
/// it stands.
pub fn try_master<B: Bus>(board: &Board<B>, pass: &mut Pass<B>) -> Result<(), Taken>
    requires ready { IsReady board.now.table.shared.table_id pass.old }
    requires phase { pass.old.stand.phase ≡ Want }
    ensures won { IfOk result (λ _. pass.new.stand ≡ to_phase Own pass.old.stand) }
    ensures taken { IfErr result (λ taken. (pass.new.stand ≡ pass.old.stand) × (taken.by.0 < pass.old.stand.harts)) }
    ensures ready { IsReady board.now.table.shared.table_id pass.new }
    ensures start { start_of pass.new ≡ start_of pass.old }
{
    let number = u64::from(pass.stand.hart.0) + 1;
    let words = &board.table.shared;
    let found = words.compare_exchange::<plays::TryMaster>(&mut pass.seat, MASTER, 0, number);
    if found == 0 {
        pass.stand.phase = Phase::Own;
        return Ok(());
    }
    Err(Taken {
        by: Hart((found - 1) as u8),
    })
}

/// Takes the hart's own word back: a mark, or that of a master that is done.
pub fn clear<B: Bus>(board: &Board<B>, pass: &mut Pass<B>)
    requires ready { IsReady board.now.table.shared.table_id pass.old }
    requires phase { IsTrue (clears pass.old.stand.phase) }
    ensures stand { pass.new.stand ≡ to_phase (after_clear pass.old.stand.phase) pass.old.stand }
    ensures ready { IsReady board.now.table.shared.table_id pass.new }
    ensures start { start_of pass.new ≡ start_of pass.old }
{
    let own = OWN + pass.stand.hart.0 as usize;
    let words = &board.table.shared;
    words.store::<plays::Clear>(&mut pass.seat, own, 0);
    pass.stand.phase = after_clear(pass.stand.phase);
}

/// Frees the master word.
pub fn free<B: Bus>(board: &Board<B>, pass: &mut Pass<B>)
    requires ready { IsReady board.now.table.shared.table_id pass.old }
    requires phase { pass.old.stand.phase ≡ Free }
    ensures stand { pass.new.stand ≡ to_phase Run pass.old.stand }
    ensures ready { IsReady board.now.table.shared.table_id pass.new }
    ensures start { start_of pass.new ≡ start_of pass.old }
{
    let words = &board.table.shared;
    words.store::<plays::Free>(&mut pass.seat, MASTER, 0);
    pass.stand.phase = Phase::Run;
}
