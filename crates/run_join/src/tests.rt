//! Runs of a small bus to their end.
use crate::{Millisecond, run_all};
use board_turn::Board;
use deck_core::{Bus, Counted};
use mach_base::Ending;
use std::test::Fail;
use test_bus::small_bus;

/// Two harts, of which hart 0 has a trap at the start: with all four lines read, the next step is the end.
#[test]
fn two_harts_come_to_their_end(rt: HostRuntime) -> Result<(), Fail> {
    let seated = Board::new(rt.alloc(), small_bus(1), 100)?;
    let bus = run_all(&rt, rt.alloc(), seated, 2, 100, Counted::new())?;
    assert_eq!(rt; (bus.over(), bus.lost()), (Some(Ending::StepLimit), false));
    assert_eq!(rt; (bus.harts(), bus.notes().lines), (2, 4));
    Ok(())
}

/// The same with a pause that sleeps.
#[test]
fn harts_sleep_where_they_wait(rt: HostRuntime) -> Result<(), Fail> {
    let seated = Board::new(rt.alloc(), small_bus(3), 100)?;
    let bus = run_all(&rt, rt.alloc(), seated, 2, 100, Millisecond::new(&rt))?;
    assert_eq!(rt;
        (bus.over(), bus.notes().lines),
        (Some(Ending::StepLimit), 4)
    );
    Ok(())
}
