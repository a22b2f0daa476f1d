//! The run of the generated input.
ghost use Rattle.std.specs.Prelude.{◌≡◌, false, length, IfOk};
ghost use Rattle.mach_base.specs.declared.limits.TheConstants.{MOST_STEPS};
ghost use Rattle.bus_core.specs.Core.{ComesFrom, machine_of, text_of};
ghost use Rattle.bus_core.specs.Origin.{Origin};
ghost use Rattle.hart_prog.specs.Plan.{hart_numbers};
ghost use Rattle.kdbsim_runs.specs.Lockstep.{IsTicked};
ghost use Rattle.kdbsim_runs.specs.Record.{ending_or};
ghost use Rattle.gen_load.specs.Input.{AreBelow};
ghost use Rattle.kdbsim_load.specs.Load.{AreNumbers, IsEnding, IsLoad, start_with};

use crate::counts::counts_of;
use crate::inputs::{image_of_text, script_of_text};
use crate::{LoadTold, ROUNDS};
use atom_mach::Script;
use bus_calls::CoreBus;
use bus_core::Core;
use deck_core::Flat;
use gen_load::{HARTS, load_input};
use hart_prog::{programs, run_plan};
use img_text::Image;
use mach_base::{Ending, Hart, MOST_STEPS, OutOfMemory};
use plant_mach::never_legal;
use std::alloc::Global;
use sym_map::Symbols;

/// Runs the input that the number says, and tells its ending and its numbers. No journal and no transcript is written.
pub fn run_load(alloc: Global, number: u32) -> Result<LoadTold, OutOfMemory>
    ensures { IfOk result (IsLoad number) }
{
    let input = load_input(alloc, number)?;
    let image = image_of_text(alloc, input.image.as_bytes())?;
    let script = script_of_text(alloc, input.script.as_bytes())?;
    let bus = run_ticks(alloc, &image, script, input.plan.as_slice())?;
    Ok(told_of(bus.core()))
}

/// The bus after the ticks of these harts, in order, from the start of the image and the script.
fn run_ticks(
    alloc: Global,
    image: &Image,
    script: Script,
    plan: &[u8],
) -> Result<CoreBus, OutOfMemory>
    requires { AreBelow HARTS plan.now }
    ensures { IfOk result (IsTicked (start_with image.now script) ROUNDS plan.now) }
{
    let harts = harts_of(alloc, plan)?;
    let bus = CoreBus::start(
        alloc,
        image,
        Symbols::empty(alloc),
        script,
        HARTS,
        MOST_STEPS,
    )?;
    let mut deck = Flat::new(alloc, bus, ROUNDS)?;
    let mut progs = programs(alloc, HARTS, ROUNDS)?;
    run_plan(&mut deck, progs.as_mut_slice(), harts.as_slice());
    let bus = deck.into_bus();
    if bus.core().lost() {
        return Err(OutOfMemory);
    }
    Ok(bus)
}

/// The harts of these numbers.
fn harts_of(alloc: Global, plan: &[u8]) -> Result<Vec<Hart>, OutOfMemory>
    ensures { IfOk result (λ harts. hart_numbers harts.items ≡ plan.now) }
{
    let mut harts = Vec::with_capacity(alloc, plan.len())?;
    for number in plan {
        harts.push(Hart(*number))?;
    }
    Ok(harts)
}

/// What is told of the core: the ending that stands or that of a plan's end, the steps, and what the journal counts.
fn told_of(core: &Core) -> LoadTold
    requires kept { core.now.lost ≡ false }
    ensures numbers { AreNumbers core.now result }
    ensures ending { (start : Origin) → ComesFrom start core.now → IsEnding start core.now result }
{
    never_legal();
    core.reads_as_a_run();
    let _printed = printed_bytes(core);
    let journal = core.journal();
    let entries = journal.len();
    let counts = counts_of(journal);
    LoadTold {
        ending: ending_of(core),
        steps: core.steps(),
        sessions: counts.sessions,
        entries,
        late: counts.late,
    }
}

/// How many bytes were printed; no more harts were late.
fn printed_bytes(core: &Core) -> usize
    ensures { result ≡ length (text_of core.now) }
{
    core.transcript().len()
}

/// The ending that stands, or that of a plan's end.
fn ending_of(core: &Core) -> Ending
    ensures { result ≡ ending_or (machine_of core.now).ending }
{
    core.over().unwrap_or(Ending::PlanEnd)
}
