//! Two seats of a board in one thread, driven by a plan over the bus of the planted machine.
ghost use Rattle.std.specs.Prelude.{◌≡◌, true, IfSome};
ghost use Rattle.deck_core.specs.ticks.Phases.{is_finished};
ghost use Rattle.hart_prog.specs.Program.{Stands};
ghost use Rattle.board_turn.specs.Ready.{IsFresh, seat_in, start_of};
ghost use Rattle.board_turn.specs.Rule.{IsOrigin};
ghost use Rattle.board_elect.specs.Decks.{IsSeated, SameBoard};
ghost use Rattle.run_join.specs.Passes.{Begins, HasRun};

use atom_mach::check_script;
use board_elect::BoardSeat;
use board_turn::{Board, Pass, Seated};
use bus_calls::CoreBus;
use deck_core::Bus;
use hart_prog::{Prog, Progress};
use img_text::read_image;
use mach_base::Ending;
use std::alloc::Global;
use std::test::Fail;
use sym_map::Symbols;

/// A hart, and so many of its ticks.
type Ticks = (u8, u32);

/// Makes so many ticks of a hart. Whether it has seen an ending then.
fn make_ticks<B: Bus>(seat: &mut BoardSeat<'_, B>, prog: &mut Prog, ticks: u32) -> bool
    requires stands { Stands prog.old (seat_in seat.old.idle seat.old.pass) }
    requires ready { IsSeated B.told B.SameOrigin seat.old.board.now.table.shared.table_id seat.old.pass seat.old.held }
    ensures stands { Stands prog.new (seat_in seat.new.idle seat.new.pass) }
    ensures ready { IsSeated B.told B.SameOrigin seat.new.board.now.table.shared.table_id seat.new.pass seat.new.held }
    ensures board { SameBoard seat.old.board.now.table.shared.table_id seat.new.board.now.table.shared.table_id seat.old.pass seat.new.pass }
    ensures hart { seat.old.pass.stand.hart.0 ≡ seat.new.pass.stand.hart.0 }
    ensures done { result ≡ true → is_finished seat.new.pass.stand.phase ≡ true }
{
    let mut is_done = false;
    for _ in 0..ticks {
        is_done = prog.advance(seat) == Progress::Finished;
    }
    is_done
}

/// The passes after the plan's ticks; None where one of the harts has seen no ending then.
fn drive<B: Bus>(
    board: &Board<B>,
    first: Pass<B>,
    second: Pass<B>,
    plan: &[Ticks],
) -> Option<(Pass<B>, Pass<B>)>
    requires first { Begins board.now.table.shared.table_id 2 100 first }
    requires second { Begins board.now.table.shared.table_id 2 100 second }
    ensures first { IfSome result (λ p. HasRun board.entry.now.table.shared.table_id first p.0) }
    ensures second { IfSome result (λ p. HasRun board.entry.now.table.shared.table_id second p.1) }
{
    let mut progs = (
        Prog::new(first.stand.hart, 2, 100),
        Prog::new(second.stand.hart, 2, 100),
    );
    let mut one = BoardSeat::new(board, first);
    let mut other = BoardSeat::new(board, second);
    let mut done = (false, false);
    for &(hart, ticks) in plan {
        if hart == 0 {
            done.0 = make_ticks(&mut one, &mut progs.0, ticks);
        } else {
            done.1 = make_ticks(&mut other, &mut progs.1, ticks);
        }
    }
    if done.0 && done.1 {
        Some((one.into_pass(), other.into_pass()))
    } else {
        None
    }
}

/// The bus of a new board of two harts after the plan's ticks.
fn bus_after<B: Bus>(alloc: Global, seated: Seated<B>, plan: &[Ticks]) -> Result<Option<B>, Fail>
    requires { IsFresh seated.board.table.shared.table_id (start_of seated.first) 0 2 100 1 seated.first }
{
    let Seated { board, first } = seated;
    let mut first = first;
    let second = board.split(&mut first);
    let Some((first, second)) = drive(&board, first, second, plan) else {
        return Ok(None);
    };
    let mut passes = Vec::new(alloc);
    passes.push(first)?;
    passes.push(second)?;
    Ok(Some(board.finish(passes)))
}

/// Hart 1 has seen the gate open, but its mark still has the old number when hart 0 shuts the gate again. In the last row
/// hart 0 sees the ending.
const OLD_MARK: &[Ticks] = &[
    (0, 12),
    (1, 5),
    (0, 19),
    (1, 1),
    (0, 25),
    (1, 7),
    (0, 49),
    (1, 100),
    (0, 20),
    (1, 100),
    (0, 20),
];

const OLD_MARK_TEXT: &str = "Entering kdb on processor 0 due to Start @ 0x0000000000001000
[0]kdb> bp 1004
BP #0 at 0x0000000000001004 enabled
[0]kdb> go
Entering kdb on processor 0 due to Breakpoint 0 @ 0x0000000000001004
[0]kdb> go
Entering kdb on processor 1 due to Breakpoint 0 @ 0x0000000000001004
[1]kdb> \n";

#[test]
fn seats_come_to_what_the_plan_says(rt: HostRuntime) -> Result<(), Fail> {
    let alloc = rt.alloc();
    let image = read_image(
        alloc,
        b"kimg 1\ntext 0x1000 16\nw 0x00000013 0x00000013 0x00000073\n",
    )?;
    let script = check_script(alloc, b"bp 1004\ngo\ngo\n")?;
    let bus = CoreBus::start(alloc, &image, Symbols::empty(alloc), script, 2, 1_000_000)?;
    let seated = Board::new(alloc, bus, 100)?;
    let bus = bus_after(alloc, seated, OLD_MARK)?;
    let Some(bus) = bus else {
        panic!(rt; "a hart has seen no ending")
    };
    assert_eq!(rt; bus.core().transcript(), OLD_MARK_TEXT.as_bytes());
    assert_eq!(rt; (bus.core().journal().len(), bus.core().steps()), (25, 4));
    assert_eq!(rt; bus.over(), Some(Ending::ScriptEnd));
    Ok(())
}
