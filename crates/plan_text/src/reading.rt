//! The lines of a plan file, one after the other.

ghost use Rattle.std.specs.Prelude.{◌≡◌, ◌++◌, [], Ok, MatchResult, OnOk};
ghost use Rattle.std.specs.List.{cons_option};
ghost use Rattle.mach_base.specs.Lines.{lines_of};
ghost use Rattle.plan_text.specs.Reading.{IsFault, read_lines, all_lines};

use crate::PlanFault;
use crate::line::line_of;
use crate::run::Run;
use mach_base::{OutOfMemory, is_header_of, next_line};
use std::alloc::Global;

/// The runs of all lines, however many ticks they have.
#[tactic(auto, unfolding(crate::specs::Reading::all_lines))]
pub fn read_runs(alloc: Global, text: &[u8], harts: u8) -> Result<Vec<Run>, PlanFault>
    ensures { MatchResult result (λ runs. all_lines harts (lines_of text.now) ≡ Ok runs.items) (λ fault. IsFault fault (all_lines harts (lines_of text.now))) }
{
    let Some((first, rest)) = next_line(text) else {
        return Err(PlanFault::Bad { line: 1 });
    };
    if !is_header_of(first, b"kplan") {
        return Err(PlanFault::Bad { line: 1 });
    }
    read_lines(alloc, rest, harts)
}

/// The runs of the lines from the second on.
fn read_lines(alloc: Global, text: &[u8], harts: u8) -> Result<Vec<Run>, PlanFault>
    ensures { MatchResult result (λ runs. read_lines 2 harts (lines_of text.now) ≡ Ok runs.items) (λ fault. IsFault fault (read_lines 2 harts (lines_of text.now))) }
{
    let mut runs = Vec::new(alloc);
    let mut number = 2;
    let mut left = text;
    while let Some((line, rest)) = next_line(left) {
        let found = line_of(alloc, number, harts, line)?;
        keep(&mut runs, found)?;
        number += 1;
        left = rest;
    }
    Ok(runs)
}

/// Appends a run, if there is one.
fn keep(runs: &mut Vec<Run>, found: Option<Run>) -> Result<(), OutOfMemory>
    ensures { OnOk result (runs.new.items ≡ runs.old.items ++ cons_option found []) }
{
    if let Some(run) = found {
        runs.push(run)?;
    }
    Ok(())
}
