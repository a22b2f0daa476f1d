//! The top call.
ghost use Rattle.std.specs.Prelude.{◌≡◌, ℕ, List, Option, true, false, map, None, MatchOption};
ghost use Rattle.std.specs.String.{string_bytes};
ghost use Rattle.io_edge.specs.Edge.{FileMap};
ghost use Rattle.program_words.specs.Commands.{command_of, writes_apart};
ghost use Rattle.program_words.specs.Commands as words;
ghost use Rattle.program_words.specs.Laws.{AreWithin, IsCommandWithin};
ghost use Rattle.program_words.specs.Views.{command_view};
ghost use Rattle.kdbsim_files.specs.declared.status.Status.TheVariants.{Usage};
ghost use Rattle.kdbsim_top.specs.Causes.{Explains, IsAnswer, IsAnswerAlone, IsForThreads, outside};
ghost use Rattle.kdbsim_top.specs.Runs.{is_run};

use crate::commands::{load, lockstep, replay_files, run_files, uni};
use crate::inputs::StartNames;
use crate::publish::{print, publish};
use deck_core::Pause;
use io_edge::{Shelf, Sink};
use kdbsim_builds::{assemble, convert};
use kdbsim_files::Status;
use mach_base::OutOfMemory;
use program_words::{Command, Options, WordsFault, command_of};
use std::alloc::Global;
use std::sync::Wait;
use std::thread::Threads;

/// All that the program does: reads its words, reads the files that they name from the shelf, runs the machine, writes the
/// journal, if the command has one, and puts the transcript into the sink in one call; of a command that makes files it writes
/// these. The answer says how the run ended, or why there was none; each has its cause (docs/theorems.md). The workers of
/// `run` are threads of `rt`, and each pauses on its own copy of `pause` where its hart can't go on; the call may wait for
/// one of them for ever.
pub fn kdbsim<R: Threads + Wait + Sync, F: Shelf, O: Sink, P: Pause + Copy + Send>(
    rt: &R,
    alloc: Global,
    words: &[String],
    shelf: &mut F,
    out: &mut O,
    pause: P,
) -> Status
    // Usage comes only where the words ask for no command.
    ensures usage { result ≡ Usage → command_of (map string_bytes words.now) ≡ None }

    // Every answer has its cause; that of Done is the headline.
    ensures cause { IsAnswer (outside F.contents F.faults shelf.old shelf.new O.taken O.faults out.old out.new)
        (command_of (map string_bytes words.now)) result }
{
    match command_of(words, alloc) {
        Ok(
            Command::Run {
                image,
                map,
                script,
                journal,
                options,
            },
        ) => {
            let names = StartNames { image, map, script };
            answer_run(rt, alloc, shelf, out, names, journal, options, pause)
        }
        Ok(command) => answer(alloc, command, shelf, out),
        Err(WordsFault::Usage) => Status::Usage,
        Err(WordsFault::OutOfMemory) => Status::OutOfMemory,
    }
}

/// The same of every command but `run`, without a wait: the call returns. None comes only where the words ask for `run`, and
/// nothing was written then; where they do, it comes unless memory runs out.
pub fn alone<F: Shelf, O: Sink>(
    alloc: Global,
    words: &[String],
    shelf: &mut F,
    out: &mut O,
) -> Option<Status>
    ensures { MatchOption result
        (IsForThreads (outside F.contents F.faults shelf.old shelf.new O.taken O.faults out.old out.new) (command_of (map string_bytes words.now)))
        (IsAnswerAlone (outside F.contents F.faults shelf.old shelf.new O.taken O.faults out.old out.new) (command_of (map string_bytes words.now))) }
{
    match command_of(words, alloc) {
        Ok(Command::Run { .. }) => None,
        Ok(command) => Some(answer(alloc, command, shelf, out)),
        Err(WordsFault::Usage) => Some(Status::Usage),
        Err(WordsFault::OutOfMemory) => Some(Status::OutOfMemory),
    }
}

/// The answer to a command other than `run`.
fn answer<F: Shelf, O: Sink>(
    alloc: Global,
    command: Command<'_>,
    shelf: &mut F,
    out: &mut O,
) -> Status
    requires within { IsCommandWithin (command_view command) }
    requires apart { writes_apart (command_view command) ≡ true }
    requires alone { is_run (command_view command) ≡ false }
    ensures cause { Explains (outside F.contents F.faults shelf.old shelf.new O.taken O.faults out.old out.new)
        (command_view command.entry) result }
{
    match command {
        Command::Uni { image, script } => answer_uni(alloc, shelf, out, image, script),
        Command::Replay {
            image,
            map,
            script,
            journal,
        } => {
            let names = StartNames { image, map, script };
            answer_replay(alloc, shelf, out, names, journal)
        }
        Command::Lockstep {
            image,
            map,
            script,
            plan,
            journal,
            options,
        } => {
            let names = StartNames { image, map, script };
            answer_lockstep(alloc, shelf, out, names, plan, journal, options)
        }
        Command::Asm { source, image } => assemble(alloc, shelf, source, image),
        Command::Elf {
            executable,
            image,
            map,
        } => convert(alloc, shelf, executable, image, map),
        Command::Load { number } => answer_load(alloc, out, number),
        Command::Run { .. } => unreachable!(),
    }
}

/// The command `uni`.
fn answer_uni<F: Shelf, O: Sink>(
    alloc: Global,
    shelf: &mut F,
    out: &mut O,
    image: &str,
    script: &str,
) -> Status
    ensures cause { Explains (outside F.contents F.faults shelf.old shelf.new O.taken O.faults out.old out.new)
        (words.uni image.now script.now) result }
{
    match uni(alloc, shelf, image, script) {
        Ok(told) => print(out, told),
        Err(status) => status,
    }
}

/// The command `replay`.
fn answer_replay<F: Shelf, O: Sink>(
    alloc: Global,
    shelf: &mut F,
    out: &mut O,
    names: StartNames<'_>,
    journal: &str,
) -> Status
    ensures cause { Explains (outside F.contents F.faults shelf.old shelf.new O.taken O.faults out.old out.new)
        (words.replay names.entry.image.now names.entry.map.now names.entry.script.now journal.now) result }
{
    match replay_files(alloc, shelf, names, journal) {
        Ok(told) => print(out, told),
        Err(status) => status,
    }
}

/// The command `lockstep`.
fn answer_lockstep<F: Shelf, O: Sink>(
    alloc: Global,
    shelf: &mut F,
    out: &mut O,
    names: StartNames<'_>,
    plan: &str,
    journal: &str,
    options: Options,
) -> Status
    requires within { AreWithin options }
    ensures cause { Explains (outside F.contents F.faults shelf.old shelf.new O.taken O.faults out.old out.new)
        (words.lockstep names.entry.image.now names.entry.map.now names.entry.script.now plan.now journal.now options) result }
{
    match lockstep(alloc, shelf, names, plan, options) {
        Ok(recorded) => publish(shelf, out, journal, recorded),
        Err(status) => status,
    }
}

/// The command `load`, which calls the shelf for nothing.
fn answer_load<O: Sink>(alloc: Global, out: &mut O, number: u32) -> Status
    ensures { (files : Option FileMap) (count : ℕ) → Explains (record {
      files_before = files;
      files_after = files;
      shelf_before = count;
      shelf_after = count;
      taken_before = O.taken out.old;
      taken_after = O.taken out.new;
      sink_before = O.faults out.old;
      sink_after = O.faults out.new;
    }) (words.load number) result }
{
    match load(alloc, number) {
        Ok(told) => print(out, told),
        Err(OutOfMemory) => Status::OutOfMemory,
    }
}

/// The command `run`.
fn answer_run<R: Threads + Wait + Sync, F: Shelf, O: Sink, P: Pause + Copy + Send>(
    rt: &R,
    alloc: Global,
    shelf: &mut F,
    out: &mut O,
    names: StartNames<'_>,
    journal: &str,
    options: Options,
    pause: P,
) -> Status
    requires within { AreWithin options }
    ensures cause { Explains (outside F.contents F.faults shelf.old shelf.new O.taken O.faults out.old out.new)
        (words.run names.entry.image.now names.entry.map.now names.entry.script.now journal.now options) result }
{
    match run_files(rt, alloc, shelf, names, options, pause) {
        Ok(recorded) => publish(shelf, out, journal, recorded),
        Err(status) => status,
    }
}
