//! The plan of the input.
ghost use Rattle.std.specs.Prelude.{◌≡◌, ◌<◌, ◌^◌, IfOk};
ghost use Rattle.gen_load.specs.Input.{AreBelow, hart_of, next_number, plan_to};

use crate::HARTS;
use mach_base::OutOfMemory;
use std::alloc::Global;

/// The harts of so many ticks, by the sequence from this number on.
pub fn plan_of_load(alloc: Global, number: u32, ticks: usize) -> Result<Vec<u8>, OutOfMemory>
    ensures ticks { IfOk result (λ plan. plan.items ≡ plan_to number ticks) }
    ensures below { IfOk result (λ plan. AreBelow HARTS plan.items) }
{
    let mut plan = Vec::with_capacity(alloc, ticks)?;
    let mut drawn = u64::from(number);
    for tick in 0..ticks {
        drawn = next_number(drawn);
        plan.push_reserved(hart_of(drawn));
    }
    Ok(plan)
}

/// The number after this one in the sequence.
fn next_number(number: u64) -> u64
    ensures { result ≡ next_number number }
{
    number
        .wrapping_mul(6_364_136_223_846_793_005)
        .wrapping_add(1_442_695_040_888_963_407)
}

/// The hart of the tick with this number.
fn hart_of(number: u64) -> u8
    ensures { result ≡ hart_of number }
{
    (number >> 62) as u8
}
