//! What a run leaves behind.
ghost use Rattle.std.specs.Prelude.{◌≡◌, ◌≤◌, false, IfOk};
ghost use Rattle.mach_base.specs.declared.limits.TheConstants.{MOST_HARTS, MOST_STEPS};
ghost use Rattle.jrn_text.specs.Journal.{journal_text};
ghost use Rattle.bus_core.specs.Core.{machine_of, entries_of, text_of, ComesFrom};
ghost use Rattle.bus_core.specs.Origin.{Origin};
ghost use Rattle.kdbsim_runs.specs.Record.{ending_or, IsRecord, IsOfHarts};

use atom_mach::push_ending_line;
use bus_core::Core;
use jrn_text::write_journal;
use mach_base::{Ending, OutOfMemory};
use plant_mach::{entries_keep, entries_keep_order, never_legal, starts_are_orderly};
use std::alloc::Global;

/// How a run ended, and its transcript with the line of the ending.
#[derive(Debug, Drop)]
pub struct Told {
    pub ending: Ending,
    pub transcript: Vec<u8>,
}

/// The record of the run that made the core, from whatever start it comes; `PlanEnd` where no ending stands.
pub fn record_of(alloc: Global, core: &Core) -> Result<Told, OutOfMemory>
    requires kept { core.now.lost ≡ false }
    ensures { IfOk result (λ told. (start : Origin) → ComesFrom start core.now → IsRecord start (entries_of core.now) told.ending told.transcript.items) }
{
    never_legal();
    core.reads_as_a_run();
    let ending = ending_of(core);
    let mut transcript = Vec::from_slice(alloc, core.transcript())?;
    push_ending_line(&mut transcript, ending, core.steps())?;
    Ok(Told { ending, transcript })
}

/// The ending that stands, or that of a plan's end.
fn ending_of(core: &Core) -> Ending
    ensures { result ≡ ending_or (machine_of core.now).ending }
{
    match core.over() {
        None => Ending::PlanEnd,
        Some(ending) => ending,
    }
}

/// The journal of the core as text, with these numbers of its start: its harts, and its limit of steps.
pub fn write_record(
    alloc: Global,
    core: &Core,
    harts: u8,
    limit: u64,
) -> Result<Vec<u8>, OutOfMemory>
    requires some_harts { 1 ≤ harts }
    requires few_harts { harts ≤ MOST_HARTS }
    requires low { 1 ≤ limit }
    requires high { limit ≤ MOST_STEPS }
    requires origin { ∥ IsOfHarts harts core.now ∥₁ }
    ensures { IfOk result (λ text. text.items ≡ journal_text harts limit (entries_of core.now)) }
{
    entries_keep();
    entries_keep_order();
    starts_are_orderly();
    write_journal(alloc, harts, limit, core.journal())
}
