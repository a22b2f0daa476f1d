//! The turn of a bus, by two passes in one thread.
ghost use Rattle.std.specs.Prelude.{◌≡◌};

use crate::{Board, Busy, Seated, Standing};
use deck_core::{Act, Answer, Phase, Place, Turned, turn_word};
use mach_base::Hart;
use std::test::Fail;
use test_bus::small_bus;

/// Hart 0 takes the turn, so hart 1 finds it busy; after hart 0's call, the word that hart 1 saw doesn't stand any more.
#[test]
fn the_turn_is_had_by_one(rt: HostRuntime) -> Result<(), Fail> {
    let Seated { board, first } = Board::new(rt.alloc(), small_bus(1), 2)?;
    let mut first = first;
    let mut second = board.split(&mut first);
    let seen = board.peek_turn(&mut second);
    assert!(rt; seen == Ok(0));
    let held = board.try_turn(&mut first)?;
    let holder = turn_word(0, Hart(0));
    assert!(rt; first.stand.place == Place::Give);
    let busy = board.take_turn(&mut second, 0).err();
    assert!(rt; busy == Some(Busy { seen: holder }));
    let answer = board.give(&mut first, held, Act::HartStep(Hart(0)));
    assert!(rt; answer == Answer::HartStep(Turned::Trapped));
    assert!(rt; first.stand.phase == Phase::Wish && first.stand.made == 2);
    assert!(rt; second.stand.phase == Phase::Run && second.stand.place == Place::Peek);
    Ok(())
}
