//! Whole sessions of two harts on a small bus, by tables of ticks; a bus whose calls are a function.
ghost use Rattle.std.specs.Prelude.{◌≡◌};
ghost use Rattle.deck_core.specs.contract.Told.{IsOpening};
ghost use Rattle.hart_prog.specs.Plan.{AllStand};

use crate::{Prog, Progress, programs, run_plan};
use deck_core::{Bus, Deck, Flat, Kept, Phase, runs_are_exact};
use mach_base::{Ending, Hart, OutOfMemory};
use std::alloc::Global;
use std::test::Fail;
use test_bus::{EndingBus, FIRST_LOOK, NOBODY, OLD_MARK, Row, SECOND_LOOK, ending_bus, small_bus};

fn phase_at(progs: &[Prog], k: usize) -> Option<Phase> {
    match progs.get(k) {
        Some(prog) => Some(prog.phase),
        None => None,
    }
}

/// Makes so many ticks of a hart.
fn make_ticks<B: Bus>(deck: &mut Flat<B>, progs: &mut [Prog], hart: Hart, ticks: u32)
    requires { AllStand (⟦<Flat<B> as Deck>⟧.whole deck.old) progs.old }
    ensures { AllStand (⟦<Flat<B> as Deck>⟧.whole deck.new) progs.new }
{
    for _ in 0..ticks {
        if (hart.0 as usize) < progs.len() {
            run_plan(deck, progs, &[hart]);
        }
    }
}

/// How many rows of the table hold before the first that doesn't, on a bus of two harts, with a limit of two rounds.
fn rows_that_hold<B: Bus>(alloc: Global, bus: B, rows: &[Row]) -> Result<usize, OutOfMemory>
    requires opening { IsOpening (B.told bus) }
    requires two { (B.told bus).harts ≡ 2 }
{
    let mut deck = Flat::new(alloc, bus, 2)?;
    let mut progs = programs(alloc, 2, 2)?;
    for (i, &(hart, ticks, first, second)) in rows.iter().enumerate() {
        make_ticks(&mut deck, &mut progs, Hart(hart), ticks);
        if phase_at(&progs, 0) != Some(first) || phase_at(&progs, 1) != Some(second) {
            return Ok(i);
        }
    }
    Ok(rows.len())
}

/// The time line of docs/protocol.md, with the whole of both sessions.
#[test]
fn an_old_mark_does_not_count(rt: HostRuntime) -> Result<(), Fail> {
    assert_eq!(rt;
        rows_that_hold(rt.alloc(), small_bus(1), &OLD_MARK)?,
        OLD_MARK.len()
    );
    Ok(())
}

/// Hart 1 doesn't answer in two rounds, and takes its call while the session is open.
#[test]
fn a_hart_that_does_not_answer_is_late(rt: HostRuntime) -> Result<(), Fail> {
    let kept = Kept { late: 2 };
    let enter = Phase::Enter {
        kept,
        reopens: false,
    };
    let lines = Phase::Lines { kept };
    let rows = [
        (0, 12, FIRST_LOOK, Phase::Run),
        (0, 1, SECOND_LOOK, Phase::Run),
        (0, 1, enter, Phase::Run),
        (0, 3, lines, Phase::Run),
        (1, 3, lines, Phase::Called),
    ];
    assert_eq!(rt;
        rows_that_hold(rt.alloc(), small_bus(1), &rows)?,
        rows.len()
    );
    Ok(())
}

/// The session of hart 0 takes the trap of hart 1 away, which then goes back without a session.
#[test]
fn a_trap_that_is_gone_opens_no_session(rt: HostRuntime) -> Result<(), Fail> {
    let enter = Phase::Enter {
        kept: NOBODY,
        reopens: false,
    };
    let rows = [
        (0, 8, Phase::Shut, Phase::Run),
        (1, 5, Phase::Shut, Phase::Want),
        (0, 5, enter, Phase::Want),
        (0, 33, Phase::Run, Phase::Want),
        (1, 1, Phase::Run, Phase::Own),
        (1, 3, Phase::Run, Phase::Drop),
        (1, 1, Phase::Run, Phase::Free),
        (1, 1, Phase::Run, Phase::Run),
    ];
    assert_eq!(rt;
        rows_that_hold(rt.alloc(), small_bus(3), &rows)?,
        rows.len()
    );
    Ok(())
}

/// A hart's first transaction: load, compare and exchange, call.
#[test]
fn a_transaction_takes_three_ticks(rt: HostRuntime) -> Result<(), Fail> {
    let mut deck = Flat::new(rt.alloc(), small_bus(1), 2)?;
    let mut prog = Prog::new(Hart(0), 2, 2);
    assert_eq!(rt; prog.advance(&mut deck), Progress::Again);
    assert_eq!(rt; prog.advance(&mut deck), Progress::Again);
    assert_eq!(rt; prog.phase, Phase::Run);
    assert_eq!(rt; prog.advance(&mut deck), Progress::Again);
    assert_eq!(rt; prog.phase, Phase::Wish);
    Ok(())
}

/// A run on a bus whose calls are a function ends as the function says.
#[test]
fn a_machine_that_ends_finishes_its_hart(rt: HostRuntime) -> Result<(), Fail> {
    let mut deck = Flat::new(rt.alloc(), ending_bus(), 2)?;
    let mut prog = Prog::new(Hart(0), 1, 2);
    runs_are_exact::<EndingBus>();
    assert_eq!(rt; prog.advance(&mut deck), Progress::Again);
    assert_eq!(rt; prog.advance(&mut deck), Progress::Again);
    assert_eq!(rt; prog.advance(&mut deck), Progress::Finished);
    assert_eq!(rt; deck.bus().over(), Some(Ending::AllHalted));
    Ok(())
}
