//! The passes of all harts.
ghost use Rattle.std.specs.Prelude.{◌≡◌, IfOk};
ghost use Rattle.board_turn.specs.Ready.{IsFresh, start_of};
ghost use Rattle.run_join.specs.Passes.{AreFresh};

use board_turn::{Board, Pass};
use deck_core::Bus;
use mach_base::OutOfMemory;
use std::alloc::Global;

/// The passes of so many harts, that of hart k at k, before their first ticks.
pub(crate) fn all_passes<B: Bus>(
    alloc: Global,
    board: &Board<B>,
    first: Pass<B>,
    harts: u8,
) -> Result<Vec<Pass<B>>, OutOfMemory>
    requires { IsFresh board.now.table.shared.table_id (start_of first) 0 harts first.stand.limit 1 first }
    ensures { IfOk result (λ passes. AreFresh board.entry.now.table.shared.table_id (start_of first) harts first.stand.limit passes.items) }
{
    let mut passes = Vec::with_capacity(alloc, harts as usize)?;
    let mut first = first;
    for _ in 1..harts {
        passes.push(board.split(&mut first))?;
    }
    passes.insert(0, first)?;
    Ok(passes)
}
