//! A run of all harts to its end.
ghost use Rattle.std.specs.Prelude.{◌≡◌, ◌||◌, IfOk, IsTrue, is_some};
ghost use Rattle.board_turn.specs.Ready.{AreAll, IsFresh, first_start, start_of};
ghost use Rattle.board_turn.specs.Rule.{IsOrigin};

use crate::passes::all_passes;
use crate::workers::run_each;
use board_turn::{Board, Pass, Seated};
use deck_core::{Bus, Pause};
use mach_base::OutOfMemory;
use std::alloc::Global;
use std::sync::Wait;
use std::thread::Threads;

/// The bus of a board whose harts have all seen an ending.
fn bus_at_end<B: Bus>(board: Board<B>, passes: Vec<Pass<B>>) -> B
    requires { AreAll board.table.shared.table_id passes.items }
    ensures origin { IsOrigin B.SameOrigin (first_start passes.items) result }
    ensures over { IsTrue (B.told result).over }
    ensures ended { IsTrue (is_some (B.ending result) || B.is_lost result) }
{
    board.finish(passes)
}

/// Runs the harts of a new board beside each other, each in a thread of its own, until each has seen an ending, and gives
/// the bus back. `harts` is the number of the bus's harts, and `limit` that of rounds after which a gathering ends, as the
/// board was made with them. A worker whose hart can't go on pauses on its own copy of `pause`. A lack of memory is answered
/// before the first worker starts, and then the bus is dropped. That every hart comes to an ending isn't promised: a run may
/// wait for ever.
pub fn run_all<R: Threads + Wait + Sync, B: Bus + Send, P: Pause + Copy + Send>(
    rt: &R,
    alloc: Global,
    seated: Seated<B>,
    harts: u8,
    limit: u32,
    pause: P,
) -> Result<B, OutOfMemory>
    requires { IsFresh seated.board.table.shared.table_id (start_of seated.first) 0 harts limit 1 seated.first }
    ensures origin { IfOk result (λ bus. IsOrigin B.SameOrigin (start_of seated.first) bus) }
    ensures over { IfOk result (λ bus. IsTrue (B.told bus).over) }
    ensures ended { IfOk result (λ bus. IsTrue (is_some (B.ending bus) || B.is_lost bus)) }
{
    let Seated { board, first } = seated;
    let passes = all_passes(alloc, &board, first, harts)?;
    let passes = run_each(rt, &board, passes, harts, limit, pause);
    Ok(bus_at_end(board, passes))
}
