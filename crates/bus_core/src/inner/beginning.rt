//! The machine at the start.
ghost use Rattle.std.specs.Prelude.{◌≡◌, false, IfOk, replicate};

use crate::inner::Inner;
use atom_mach::Script;
use bus_plant::Planted;
use img_text::{Image, boot};
use kdb_cmd::Kdb;
use mach_base::OutOfMemory;
use std::alloc::Global;
use sym_map::Symbols;

impl Inner {
    ghost use Rattle.std.specs.Prelude.{◌≡◌, ◌≤◌, IfOk};
    ghost use Rattle.mach_base.specs.declared.limits.TheConstants.{MOST_HARTS, MOST_STEPS};
    ghost use Rattle.plant_mach.specs.Machine.{planted_start};
    ghost use Rattle.bus_core.specs.Inner.{machine_of};

    /// The machine at the start, with this many harts, 1 to 16, and at most `limit` steps to make.
    #[tactic(auto, unfolding(plant_mach::specs::Machine::planted_start, atom_mach::specs::State::start_state))]
    pub fn start(
        alloc: Global,
        image: &Image,
        names: Symbols,
        script: Script,
        harts: u8,
        limit: u64,
    ) -> Result<Inner, OutOfMemory>
        requires some_harts { 1 ≤ harts }
        requires few_harts { harts ≤ MOST_HARTS }
        requires high { limit ≤ MOST_STEPS }
        ensures machine { IfOk result (λ inner. machine_of inner ≡ planted_start image.now names script harts limit) }
    {
        let booted = boot(alloc, image, harts)?;
        let kdb = Kdb::new(alloc)?;
        let calls = no_calls(alloc, harts)?;
        Ok(Inner {
            alloc,
            contexts: booted.ctxs,
            memory: Planted::new(booted.map),
            kdb,
            names,
            script,
            read: 0,
            limit,
            steps: 0,
            opened: false,
            calls,
            session: None,
            ending: None,
        })
    }
}

/// No call of any hart is pending.
fn no_calls(alloc: Global, harts: u8) -> Result<Vec<bool>, OutOfMemory>
    ensures { IfOk result (λ calls. calls.items ≡ replicate harts false) }
{
    let calls = vec![in alloc; false; usize::from(harts)]?;
    Ok(calls)
}
