//! What the board shows after each election step, which is the tick of what it showed before. None of these functions does
//! anything.
ghost use Rattle.board_elect.specs.Steps.{WantIsTick, TryIsTick, LoseIsTick, ClearIsTick, FreeIsTick, ShutIsTick, LookIsTick, OpenGateIsTick, SeeGateIsTick, MarkIsTick};

use deck_core::Bus;

/// The store of 1 to a hart's own word is its tick in `Wish`.
pub fn want_is_tick<B: Bus>()
    ensures { WantIsTick B }
{}

/// The exchange of the master word, where there is no master, is its tick in `Want`.
pub fn try_is_tick<B: Bus>()
    ensures { TryIsTick B }
{}

/// And where there is one.
pub fn lose_is_tick<B: Bus>()
    ensures { LoseIsTick B }
{}

/// The store of 0 to a hart's own word is its tick in `Drop` and `Unmark`.
pub fn clear_is_tick<B: Bus>()
    ensures { ClearIsTick B }
{}

/// The store of 0 to the master word is its tick in `Free`.
pub fn free_is_tick<B: Bus>()
    ensures { FreeIsTick B }
{}

/// The adding of 1 to the gate's number is its tick in `Shut`.
pub fn shut_is_tick<B: Bus>()
    ensures { ShutIsTick B }
{}

/// The load of the next hart's own word is its tick in `Gather`.
pub fn look_is_tick<B: Bus>()
    ensures { LookIsTick B }
{}

/// The adding of 1 to the gate's number is its tick in `OpenGate`.
pub fn open_gate_is_tick<B: Bus>()
    ensures { OpenGateIsTick B }
{}

/// The load of the gate's number is its tick in `Called` and `Parked`.
pub fn see_gate_is_tick<B: Bus>()
    ensures { SeeGateIsTick B }
{}

/// The store of the gate's number to a hart's own word is its tick in `Mark`.
pub fn mark_is_tick<B: Bus>()
    ensures { MarkIsTick B }
{}
