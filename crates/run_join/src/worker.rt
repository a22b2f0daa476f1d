//! The worker of one hart.
ghost use Rattle.std.specs.Prelude.{◌≡◌, ◌<◌};
ghost use Rattle.deck_core.specs.ticks.Phases.{is_finished};
ghost use Rattle.hart_prog.specs.Program.{Stands};
ghost use Rattle.hart_prog.specs.Progress.{is_done};
ghost use Rattle.board_turn.specs.Ready.{seat_in};
ghost use Rattle.board_elect.specs.Decks.{IsSeated, SameBoard};
ghost use Rattle.run_join.specs.Passes.{Begins, HasRun};

use board_elect::BoardSeat;
use board_turn::{Board, Pass};
use deck_core::{Bus, Pause};
use hart_prog::{Prog, Progress};
use mach_base::Hart;
use std::sync::Wait;

/// Makes the hart's next tick, and pauses once where the hart then can't go on.
fn turn<B: Bus, P: Pause>(
    prog: &mut Prog,
    seat: &mut BoardSeat<'_, B>,
    pause: &mut P,
    hart: Hart,
) -> Progress
    requires stands { Stands prog.old (seat_in seat.old.idle seat.old.pass) }
    requires ready { IsSeated B.told B.SameOrigin seat.old.board.now.table.shared.table_id seat.old.pass seat.old.held }
    requires own { hart.0 ≡ seat.old.pass.stand.hart.0 }
    ensures stands { Stands prog.new (seat_in seat.new.idle seat.new.pass) }
    ensures ready { IsSeated B.told B.SameOrigin seat.new.board.now.table.shared.table_id seat.new.pass seat.new.held }
    ensures board { SameBoard seat.old.board.now.table.shared.table_id seat.new.board.now.table.shared.table_id seat.old.pass seat.new.pass }
    ensures hart { seat.new.pass.stand.hart.0 ≡ seat.old.pass.stand.hart.0 }
    ensures done { is_done result ≡ is_finished seat.new.pass.stand.phase }
{
    let progress = prog.advance(seat);
    if progress == Progress::Waits {
        pause.pause(hart);
    }
    progress
}

/// Makes the ticks of a hart until it has seen an ending.
pub(crate) fn run_hart<R: Wait, B: Bus, P: Pause + Copy>(
    rt: &R,
    board: &Board<B>,
    pass: Pass<B>,
    harts: u8,
    limit: u32,
    pause: P,
) -> Pass<B>
    requires { Begins board.now.table.shared.table_id harts limit pass }
    ensures { HasRun board.entry.now.table.shared.table_id pass result }
{
    let hart = pass.stand.hart;
    let mut prog = Prog::new(hart, harts, limit);
    let mut seat = BoardSeat::new(board, pass);
    let mut pause = pause;
    for _ in rt.forever() {
        if turn(&mut prog, &mut seat, &mut pause, hart) == Progress::Finished {
            return seat.into_pass();
        }
    }
    unreachable!()
}
