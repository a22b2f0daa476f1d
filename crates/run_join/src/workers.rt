//! The workers of all harts.
ghost use Rattle.std.specs.Prelude.{◌≡◌, ◌≤◌, vec_capacity};
ghost use Rattle.run_join.specs.Passes.{AllBegin, AllRan, Begins, HasRun};

use crate::worker::run_hart;
use board_turn::{Board, Pass};
use deck_core::{Bus, Pause};
use std::sync::Wait;
use std::thread::{Threads, join};

/// Runs the harts of these passes beside each other, each in a thread of its own, until each has seen an ending. The passes
/// that come back lie as they were given, in the same memory.
#[cycle(workers)]
pub(crate) fn run_each<R: Threads + Wait + Sync, B: Bus + Send, P: Pause + Copy + Send>(
    rt: &R,
    board: &Board<B>,
    passes: Vec<Pass<B>>,
    harts: u8,
    limit: u32,
    pause: P,
) -> Vec<Pass<B>>
    requires { AllBegin board.now.table.shared.table_id harts limit passes.items }
    ensures ran { AllRan board.entry.now.table.shared.table_id passes.items result.items }
    ensures room { vec_capacity passes ≤ vec_capacity result }
{
    let mut others = passes;
    let Some(last) = others.pop() else {
        return others;
    };
    let own = move || -> Pass<B>
        requires { Begins board.now.table.shared.table_id harts limit last }
        ensures { HasRun board.entry.now.table.shared.table_id last result }
    { run_hart(rt, board, last, harts, limit, pause) };
    let rest = move || -> Vec<Pass<B>>
        requires { AllBegin board.now.table.shared.table_id harts limit others.items }
        ensures ran { AllRan board.entry.now.table.shared.table_id others.items result.items }
        ensures room { vec_capacity others ≤ vec_capacity result }
    { run_each(rt, board, others, harts, limit, pause) };
    let (last, others) = join(rt, own, rest);
    let mut passes = others;
    match passes.push(last) {
        Ok(()) => passes,
        Err(_) => unreachable!(),
    }
}
