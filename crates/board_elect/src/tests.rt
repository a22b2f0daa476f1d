//! Two passes in one thread, through the time line of docs/protocol.md.
ghost use Rattle.std.specs.Prelude.{◌≡◌};
ghost use Rattle.hart_prog.specs.Program.{Stands};
ghost use Rattle.board_elect.specs.Decks.{IsSeated};
ghost use Rattle.board_turn.specs.Ready.{seat_in};

use crate::{BoardSeat, Mark, look};
use board_turn::{Board, Seated};
use deck_core::{Bus, Phase};
use hart_prog::Prog;
use mach_base::Hart;
use std::alloc::Global;
use std::test::Fail;
use test_bus::{OLD_MARK, Row, TO_THE_OLD_MARK, small_bus};

/// Makes so many ticks of a hart.
fn make_ticks<B: Bus>(seat: &mut BoardSeat<'_, B>, prog: &mut Prog, ticks: u32)
    requires stands { Stands prog.old (seat_in seat.old.idle seat.old.pass) }
    requires ready { IsSeated B.told B.SameOrigin seat.old.board.now.table.shared.table_id seat.old.pass seat.old.held }
    ensures stands { Stands prog.new (seat_in seat.new.idle seat.new.pass) }
    ensures ready { IsSeated B.told B.SameOrigin seat.new.board.now.table.shared.table_id seat.new.pass seat.new.held }
{
    for _ in 0..ticks {
        prog.advance(seat);
    }
}

/// How many rows of the table hold before the first that doesn't.
fn rows_that_hold<B: Bus>(
    first: &mut BoardSeat<'_, B>,
    second: &mut BoardSeat<'_, B>,
    progs: &mut (Prog, Prog),
    rows: &[Row],
) -> usize
    requires first_stands { Stands progs.old.0 (seat_in first.old.idle first.old.pass) }
    requires first_ready { IsSeated B.told B.SameOrigin first.old.board.now.table.shared.table_id first.old.pass first.old.held }
    requires second_stands { Stands progs.old.1 (seat_in second.old.idle second.old.pass) }
    requires second_ready { IsSeated B.told B.SameOrigin second.old.board.now.table.shared.table_id second.old.pass second.old.held }
    ensures first_stands { Stands progs.new.0 (seat_in first.new.idle first.new.pass) }
    ensures first_ready { IsSeated B.told B.SameOrigin first.new.board.now.table.shared.table_id first.new.pass first.new.held }
    ensures second_stands { Stands progs.new.1 (seat_in second.new.idle second.new.pass) }
    ensures second_ready { IsSeated B.told B.SameOrigin second.new.board.now.table.shared.table_id second.new.pass second.new.held }
{
    for (i, &(hart, ticks, one, other)) in rows.iter().enumerate() {
        if hart == 0 {
            make_ticks(first, &mut progs.0, ticks);
        } else {
            make_ticks(second, &mut progs.1, ticks);
        }
        if first.pass.stand.phase != one || second.pass.stand.phase != other {
            return i;
        }
    }
    rows.len()
}

/// How many of the rows hold on a board of two harts, with a limit of two rounds, and what the next look of hart 0 then
/// finds, where it gathers.
fn rows_on_a_board(alloc: Global, rows: &[Row]) -> Result<(usize, Option<Mark>), Fail> {
    let Seated { board, first } = Board::new(alloc, small_bus(1), 2)?;
    let mut first = first;
    let second = board.split(&mut first);
    let mut one = BoardSeat::new(&board, first);
    let mut other = BoardSeat::new(&board, second);
    let mut progs = (Prog::new(Hart(0), 2, 2), Prog::new(Hart(1), 2, 2));
    let held = rows_that_hold(&mut one, &mut other, &mut progs, rows);
    Ok((held, look_at_next(one)))
}

/// An old mark doesn't count, and there is no late hart: both sessions, to the end.
#[test]
fn an_old_mark_does_not_count(rt: HostRuntime) -> Result<(), Fail> {
    let found = rows_on_a_board(rt.alloc(), &OLD_MARK)?;
    assert_eq!(rt; found, (OLD_MARK.len(), None));
    Ok(())
}

/// The look itself: it finds the number 3, where the gate is shut as 5.
#[test]
fn a_look_tells_the_old_mark(rt: HostRuntime) -> Result<(), Fail> {
    let found = rows_on_a_board(rt.alloc(), &OLD_MARK[..TO_THE_OLD_MARK])?;
    assert_eq!(rt; found, (TO_THE_OLD_MARK, Some(Mark::Not { seen: 3 })));
    Ok(())
}

/// The look at the hart that is next, where the hart gathers.
fn look_at_next<B: Bus>(seat: BoardSeat<'_, B>) -> Option<Mark>
    requires { IsSeated B.told B.SameOrigin seat.board.now.table.shared.table_id seat.pass seat.held }
{
    let BoardSeat {
        board,
        pass,
        held: _,
        idle: _,
    } = seat;
    let mut pass = pass;
    match pass.stand.phase {
        Phase::Gather { looks } => Some(look(board, &mut pass, Hart(looks.next))),
        _ => None,
    }
}
