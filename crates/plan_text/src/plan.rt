//! A plan and its reading.

ghost use Rattle.std.specs.Prelude.{◌≡◌, length, IfOk};
ghost use Rattle.plan_text.specs.Ticks.{AreBelow, ticks_of};
ghost use Rattle.plan_text.specs.Reading.{Gives, plan_of, told};

use crate::PlanFault;
use crate::reading::read_runs;
use crate::run::Run;
use crate::ticks::Ticks;
use mach_base::{MOST_TICKS, What};
use std::alloc::Global;
use std::marker::Model;

/// A plan as its lines say it, with at most 4,000,000 ticks. Contracts see the runs of the lines.
#[derive(Debug, Drop)]
pub struct Plan {
    runs: Vec<Run>,
    count: u64,
}

impl Model for Plan {
    ghost use Rattle.std.specs.Prelude.{List};
    ghost use Rattle.plan_text.specs.Ticks.{Run as RunRecord, IsCount};

    ghost Value = { List RunRecord };

    ghost view = { λ p. p.runs.items };

    ghost invariant = { λ p. IsCount p.runs.items p.count };
}

impl Plan {
    ghost use Rattle.std.specs.Prelude.{◌≡◌, ◌≤◌, length};
    ghost use Rattle.mach_base.specs.declared.limits.TheConstants.{MOST_TICKS};
    ghost use Rattle.plan_text.specs.Ticks.{ticks_of};
    ghost use Rattle.plan_text.specs.Left.{left_in};

    /// How many ticks there are, 4,000,000 at most.
    pub fn count(&self) -> u64
        ensures value { result ≡ length (ticks_of self.now) }
        ensures few { result ≤ MOST_TICKS }
    {
        self.count
    }

    /// The ticks in order.
    #[tactic(auto, unfolding(crate::specs::Ticks::repeated))]
    pub fn ticks(&self) -> Ticks<'_>
        ensures { left_in result ≡ ticks_of self.now }
    {
        Ticks {
            harts: &[],
            done: 0,
            times: 0,
            runs: self.runs.as_slice(),
        }
    }
}

/// Reads a plan file for so many harts. `Bad` names the first faulty line, counted from 1; `TooLarge` comes for a file
/// whose lines are all right, with its number of ticks, if that is above 4,000,000. docs/formats.md has the format `kplan`.
pub fn read_plan(alloc: Global, text: &[u8], harts: u8) -> Result<Plan, PlanFault>
    ensures gives { Gives result (plan_of harts text.now) }
    ensures below { IfOk result (λ plan. AreBelow harts (ticks_of plan)) }
{
    let runs = read_runs(alloc, text, harts)?;
    let count = tick_count(runs.as_slice());
    if count > MOST_TICKS {
        return Err(PlanFault::TooLarge {
            what: What::Ticks,
            size: count,
        });
    }
    Ok(Plan { runs, count })
}

/// How many ticks the runs have, or 2^64 - 1 where they have more.
fn tick_count(runs: &[Run]) -> u64
    ensures { result ≡ told (length (ticks_of runs.now)) }
{
    let mut count: u64 = 0;
    for run in runs {
        let harts = run.harts.len() as u64;
        count = count.saturating_add(run.times.saturating_mul(harts));
    }
    count
}
