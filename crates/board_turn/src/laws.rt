//! What the board shows after each kind of step, which is the tick of what it showed before. None of these functions does
//! anything.
ghost use Rattle.board_turn.specs.Steps.{PeekIsTick, TakeIsTick, MissIsTick, GiveIsTick, StoreShowsNothing, SplitShowsNothing, JoinShowsRun};

use deck_core::Bus;

/// The load of the turn word is the first tick of a transaction.
pub fn peek_is_tick<B: Bus>()
    ensures { PeekIsTick B }
{}

/// The compare and exchange of the turn word is the second, where the word was the one seen.
pub fn take_is_tick<B: Bus>()
    ensures { TakeIsTick B }
{}

/// And where it was another.
pub fn miss_is_tick<B: Bus>()
    ensures { MissIsTick B }
{}

/// The store of the turn word is the tick of the call.
pub fn give_is_tick<B: Bus>()
    ensures { GiveIsTick B }
{}

/// The store of a note is no tick.
pub fn store_shows_nothing<B: Bus>()
    ensures { StoreShowsNothing B }
{}

/// The making of a pass is no tick.
pub fn split_shows_nothing<B: Bus>()
    ensures { SplitShowsNothing B }
{}

/// A joined pass counts as in `Run` again.
pub fn join_shows_run<B: Bus>()
    ensures { JoinShowsRun B }
{}
