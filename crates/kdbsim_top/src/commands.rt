//! The commands, up to what is to be written.
ghost use Rattle.std.specs.Prelude.{◌≡◌, ◌≤◌, [], false, IfOk, MatchResult};
ghost use Rattle.plan_text.specs.Ticks.{AreBelow, ticks_of};
ghost use Rattle.program_words.specs.Laws.{AreWithin};
ghost use Rattle.program_words.specs.Words.{Text};
ghost use Rattle.program_words.specs.Commands as words;
ghost use Rattle.bus_core.specs.Core.{entries_of, ComesFrom};
ghost use Rattle.bus_core.specs.Origin.{Origin};
ghost use Rattle.kdbsim_runs.specs.Record.{IsRecord};
ghost use Rattle.kdbsim_files.specs.Files.{FailsAt};
ghost use Rattle.kdbsim_files.specs.declared.status.Status.TheVariants.{OutOfMemory as NoMemory};
ghost use Rattle.kdbsim_top.specs.Runs.{IsUniRun, IsReplayed, IsLockstep, IsRun, IsLoaded, inputs_of};
ghost use Rattle.kdbsim_top.specs.Stages.{FailsReplay, IsThreadedRecord, IsTickedRecord, outcome, journaled, origin_of};

use crate::inputs::{Start, StartNames, read_start};
use crate::uni::run_uni;
use bus_core::Core;
use deck_core::Pause;
use io_edge::Shelf;
use kdbsim_files::{Status, image_input, journal_input, plan_input, script_input};
use kdbsim_load::{push_load_line, run_load};
use kdbsim_runs::{
    Pace, ReplayFault, Told, record_of, replay, run_plan_of, run_threads, write_record,
};
use mach_base::OutOfMemory;
use plan_text::Plan;
use plant_mach::never_legal;
use program_words::Options;
use std::alloc::Global;
use std::sync::Wait;
use std::thread::Threads;

/// How a run ended, its transcript, and the text of its journal.
#[derive(Debug, Drop)]
pub struct Recorded {
    pub told: Told,
    pub journal: Vec<u8>,
}

/// Reads the files of `uni`, and runs the machine of one hart.
pub fn uni<F: Shelf>(
    alloc: Global,
    shelf: &mut F,
    image: &str,
    script: &str,
) -> Result<Told, Status>
    ensures cause { MatchResult result
        (λ told. IsUniRun (F.contents shelf.old) image.now script.now (outcome told.ending told.transcript.items))
        (FailsAt (F.contents shelf.old) (inputs_of (words.uni image.now script.now)) (F.faults shelf.old) (F.faults shelf.new)) }
    ensures kept { F.contents shelf.new ≡ F.contents shelf.old }
    ensures count { F.faults shelf.old ≤ F.faults shelf.new }
{
    let image = image_input(alloc, shelf, image)?;
    let script = script_input(alloc, shelf, script)?;
    match run_uni(alloc, &image, script) {
        Ok(told) => Ok(told),
        Err(OutOfMemory) => Err(Status::OutOfMemory),
    }
}

/// Reads the files of `replay`, and makes the entries of the journal.
pub fn replay_files<F: Shelf>(
    alloc: Global,
    shelf: &mut F,
    names: StartNames<'_>,
    journal: &str,
) -> Result<Told, Status>
    ensures cause { MatchResult result
        (λ told. IsReplayed (F.contents shelf.old) names.entry.image.now names.entry.map.now names.entry.script.now journal.now (outcome told.ending told.transcript.items))
        (FailsReplay (F.contents shelf.old) names.entry.image.now names.entry.map.now names.entry.script.now journal.now (F.faults shelf.old) (F.faults shelf.new)) }
    ensures kept { F.contents shelf.new ≡ F.contents shelf.old }
    ensures count { F.faults shelf.old ≤ F.faults shelf.new }
{
    let Start {
        image,
        names,
        script,
    } = read_start(alloc, shelf, names)?;
    let journal = journal_input(alloc, shelf, journal)?;
    match replay(alloc, &image, names, script, &journal) {
        Ok(core) => record_or_memory(alloc, &core),
        Err(ReplayFault::BadStep { index }) => Err(Status::BadStep { index }),
        Err(ReplayFault::OutOfMemory) => Err(Status::OutOfMemory),
    }
}

/// The record of the core, or that memory ran out.
fn record_or_memory(alloc: Global, core: &Core) -> Result<Told, Status>
    requires kept { core.now.lost ≡ false }
    ensures { MatchResult result (λ told. (start : Origin) → ComesFrom start core.now → IsRecord start (entries_of core.now) told.ending told.transcript.items) (λ status. status ≡ NoMemory) }
{
    match record_of(alloc, core) {
        Ok(told) => Ok(told),
        Err(OutOfMemory) => Err(Status::OutOfMemory),
    }
}

/// Reads the files of `lockstep`, and makes the ticks of the plan.
pub fn lockstep<F: Shelf>(
    alloc: Global,
    shelf: &mut F,
    names: StartNames<'_>,
    plan: &str,
    options: Options,
) -> Result<Recorded, Status>
    requires within { AreWithin options }
    ensures cause { MatchResult result
        (λ r. (journal : Text) → IsLockstep (F.contents shelf.old) names.entry.image.now names.entry.map.now names.entry.script.now plan.now journal options (journaled r.told.ending r.told.transcript.items journal r.journal.items))
        (FailsAt (F.contents shelf.old) (inputs_of (words.lockstep names.entry.image.now names.entry.map.now names.entry.script.now plan.now [] options)) (F.faults shelf.old) (F.faults shelf.new)) }
    ensures kept { F.contents shelf.new ≡ F.contents shelf.old }
    ensures count { F.faults shelf.old ≤ F.faults shelf.new }
{
    let start = read_start(alloc, shelf, names)?;
    let plan = plan_input(alloc, shelf, plan, options.harts)?;
    match tick_all(alloc, start, &plan, options) {
        Ok(recorded) => Ok(recorded),
        Err(OutOfMemory) => Err(Status::OutOfMemory),
    }
}

/// Makes the ticks of the plan from this start.
fn tick_all(
    alloc: Global,
    start: Start,
    plan: &Plan,
    options: Options,
) -> Result<Recorded, OutOfMemory>
    requires within { AreWithin options }
    requires below { AreBelow options.harts (ticks_of plan.now) }
    ensures { IfOk result (λ r. IsTickedRecord (origin_of start options) options plan.now r.told.ending r.told.transcript.items r.journal.items) }
{
    let Start {
        image,
        names,
        script,
    } = start;
    let bus = run_plan_of(alloc, &image, names, script, pace_of(options), plan)?;
    let told = record_of(alloc, bus.core())?;
    let journal = write_record(alloc, bus.core(), options.harts, options.steps)?;
    Ok(Recorded { told, journal })
}

/// Reads the files of `run`, and runs the harts beside each other to their end.
pub fn run_files<R: Threads + Wait + Sync, F: Shelf, P: Pause + Copy + Send>(
    rt: &R,
    alloc: Global,
    shelf: &mut F,
    names: StartNames<'_>,
    options: Options,
    pause: P,
) -> Result<Recorded, Status>
    requires within { AreWithin options }
    ensures cause { MatchResult result
        (λ r. (journal : Text) → IsRun (F.contents shelf.old) names.entry.image.now names.entry.map.now names.entry.script.now journal options (journaled r.told.ending r.told.transcript.items journal r.journal.items))
        (FailsAt (F.contents shelf.old) (inputs_of (words.run names.entry.image.now names.entry.map.now names.entry.script.now [] options)) (F.faults shelf.old) (F.faults shelf.new)) }
    ensures kept { F.contents shelf.new ≡ F.contents shelf.old }
    ensures count { F.faults shelf.old ≤ F.faults shelf.new }
{
    let start = read_start(alloc, shelf, names)?;
    match run_all_harts(rt, alloc, start, options, pause) {
        Ok(recorded) => Ok(recorded),
        Err(OutOfMemory) => Err(Status::OutOfMemory),
    }
}

/// Runs the harts beside each other from this start.
fn run_all_harts<R: Threads + Wait + Sync, P: Pause + Copy + Send>(
    rt: &R,
    alloc: Global,
    start: Start,
    options: Options,
    pause: P,
) -> Result<Recorded, OutOfMemory>
    requires within { AreWithin options }
    ensures { IfOk result (λ r. IsThreadedRecord (origin_of start options) options r.told.ending r.told.transcript.items r.journal.items) }
{
    let Start {
        image,
        names,
        script,
    } = start;
    never_legal();
    let pace = pace_of(options);
    let bus = run_threads(rt, alloc, &image, names, script, pace, pause)?;
    let told = record_of(alloc, bus.core())?;
    let journal = write_record(alloc, bus.core(), options.harts, options.steps)?;
    Ok(Recorded { told, journal })
}

/// The numbers of a run.
fn pace_of(options: Options) -> Pace
    ensures harts { result.harts ≡ options.harts }
    ensures limit { result.limit ≡ options.steps }
    ensures rounds { result.rounds ≡ options.rounds }
{
    Pace {
        harts: options.harts,
        limit: options.steps,
        rounds: options.rounds,
    }
}

/// Runs the input that the number says; its transcript is the line that tells of the run.
pub fn load(alloc: Global, number: u32) -> Result<Told, OutOfMemory>
    ensures { IfOk result (λ told. IsLoaded number (outcome told.ending told.transcript.items)) }
{
    let told = run_load(alloc, number)?;
    let mut transcript = Vec::new(alloc);
    push_load_line(&mut transcript, number, told)?;
    Ok(Told {
        ending: told.ending,
        transcript,
    })
}
