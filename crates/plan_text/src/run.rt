//! What one line of a plan says.

use mach_base::Hart;
use std::marker::Model;

/// A list of harts, and how many times it is gone through.
#[derive(Debug, Drop)]
pub struct Run {
    pub harts: Vec<Hart>,
    pub times: u64,
}

impl Model for Run {
    ghost use Rattle.plan_text.specs.Ticks.{Run as RunRecord};

    ghost Value = { RunRecord };

    ghost view = { λ r. record { harts = r.harts.items; times = r.times } };
}
