//! Runs in which the harts make their ticks in the order of a plan.
ghost use Rattle.std.specs.Prelude.{◌≡◌, ◌<◌, ◌≤◌, length, IfOk};
ghost use Rattle.mach_base.specs.declared.limits.TheConstants.{MOST_HARTS, MOST_STEPS};
ghost use Rattle.hart_prog.specs.Plan.{hart_numbers, AllBelow, AllStand, WholeRuns};
ghost use Rattle.plan_text.specs.Left.{left_in};
ghost use Rattle.bus_calls.specs.Bus.{told};
ghost use Rattle.bus_calls.specs.Calls.{Does, SameOrigin};
ghost use Rattle.plan_text.specs.Ticks.{AreBelow, ticks_of};
ghost use Rattle.kdbsim_runs.specs.Lockstep.{IsTicked};

use atom_mach::Script;
use bus_calls::CoreBus;
use deck_core::{Deck, Flat};
use hart_prog::{Prog, programs, run_plan};
use img_text::Image;
use mach_base::OutOfMemory;
use plan_text::{Plan, Ticks};
use std::alloc::Global;
use sym_map::Symbols;

/// The numbers of a run: its harts, 1 to 16; its limit of steps, 1 to 4,000,000; the rounds of looks after which a gathering
/// ends, at least 1.
#[derive(Clone, Copy, Debug, PartialEq, Eq)]
pub struct Pace {
    pub harts: u8,
    pub limit: u64,
    pub rounds: u32,
}

/// The bus after the ticks of the plan, each by its hart, from the start of the image, the symbols and the script.
pub fn run_plan_of(
    alloc: Global,
    image: &Image,
    names: Symbols,
    script: Script,
    pace: Pace,
    plan: &Plan,
) -> Result<CoreBus, OutOfMemory>
    requires some_harts { 1 ≤ pace.harts }
    requires few_harts { pace.harts ≤ MOST_HARTS }
    requires low { 1 ≤ pace.limit }
    requires high { pace.limit ≤ MOST_STEPS }
    requires rounds { 0 < pace.rounds }
    requires below { AreBelow pace.harts (ticks_of plan.now) }
    ensures { IfOk result (IsTicked (record { image = image.now; symbols = names; lines = script; harts = pace.harts; limit = pace.limit }) pace.rounds (hart_numbers (ticks_of plan.now))) }
{
    let bus = CoreBus::start(alloc, image, names, script, pace.harts, pace.limit)?;
    let mut deck = Flat::new(alloc, bus, pace.rounds)?;
    let mut progs = programs(alloc, pace.harts, pace.rounds)?;
    make_ticks(&mut deck, progs.as_mut_slice(), plan.ticks());
    let bus = deck.into_bus();
    if bus.core().lost() {
        return Err(OutOfMemory);
    }
    Ok(bus)
}

/// Makes these ticks, each by its hart.
fn make_ticks(deck: &mut Flat<CoreBus>, progs: &mut [Prog], ticks: Ticks<'_>)
    requires stand { AllStand (⟦<Flat<CoreBus> as Deck>⟧.whole deck.old) progs.old }
    requires below { AllBelow (length progs.old) (left_in ticks) }
    ensures runs { WholeRuns told Does (hart_numbers (left_in ticks.entry)) (⟦<Flat<CoreBus> as Deck>⟧.whole deck.old) deck.old.bus (⟦<Flat<CoreBus> as Deck>⟧.whole deck.new) deck.new.bus }
    ensures origin { SameOrigin deck.old.bus deck.new.bus }
{
    let mut ticks = ticks;
    while let Some(hart) = ticks.next_tick() {
        run_plan(deck, progs, &[hart]);
    }
}
