//! The whole input.
ghost use Rattle.std.specs.Prelude.{◌≡◌, IfOk};
ghost use Rattle.gen_load.specs.Input.{AreBelow, generated};

use crate::image::image_of_load;
use crate::plan::plan_of_load;
use crate::script::script_of_load;
use crate::{HARTS, TICKS};
use mach_base::{OutOfMemory, Text};
use std::alloc::Global;
use std::marker::Model;

/// The input of the command `load`. The plan has the number of a hart, 0 to 3, for each tick.
#[derive(Debug, Drop)]
pub struct LoadInput {
    pub image: Text,
    pub script: Text,
    pub plan: Vec<u8>,
}

impl Model for LoadInput {
    ghost use Rattle.gen_load.specs.Input.{Generated};

    ghost Value = { Generated };

    ghost view = { λ l. record { image = l.image; script = l.script; plan = l.plan.items } };
}

/// The input that the number says.
#[tactic(auto, unfolding(crate::specs::Input::generated))]
pub fn load_input(alloc: Global, number: u32) -> Result<LoadInput, OutOfMemory>
    ensures input { IfOk result (λ input. input ≡ generated number) }
    ensures below { IfOk result (λ input. AreBelow HARTS input.plan) }
{
    let image = image_of_load(alloc)?;
    let script = script_of_load(alloc)?;
    let plan = plan_of_load(alloc, number, TICKS)?;
    Ok(LoadInput {
        image,
        script,
        plan,
    })
}
