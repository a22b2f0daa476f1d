//! Writes what a run comes to: the journal, then the transcript.
ghost use Rattle.std.specs.Prelude.{◌≤◌, ℕ, Option};
ghost use Rattle.io_edge.specs.Edge.{FileMap};
ghost use Rattle.kdbsim_top.specs.Causes.{IsPublished};
ghost use Rattle.kdbsim_top.specs.Stages.{outcome, journaled};

use crate::commands::Recorded;
use io_edge::{Failed, Shelf, Sink};
use kdbsim_files::Status;
use kdbsim_runs::Told;
use mach_base::OutOfMemory;

/// Puts the transcript into the sink, in one call.
pub fn print<O: Sink>(out: &mut O, told: Told) -> Status
    ensures { (files : Option FileMap) (before after : ℕ) → IsPublished (record {
      files_before = files;
      files_after = files;
      shelf_before = before;
      shelf_after = after;
      taken_before = O.taken out.old;
      taken_after = O.taken out.new;
      sink_before = O.faults out.old;
      sink_after = O.faults out.new;
    }) (outcome told.ending told.transcript.items) result }
{
    let transcript = told.transcript.as_slice();
    if let Err(OutOfMemory) = out.reserve(transcript.len()) {
        return Status::OutOfMemory;
    }
    match out.put(transcript) {
        Ok(()) => Status::Done(told.ending),
        Err(Failed) => Status::WriteFault,
    }
}

/// Makes room for both, writes the journal under its name, and then puts the transcript into the sink in one call.
pub fn publish<F: Shelf, O: Sink>(
    shelf: &mut F,
    out: &mut O,
    name: &str,
    recorded: Recorded,
) -> Status
    ensures { (before : ℕ) → before ≤ F.faults shelf.old → IsPublished (record {
      files_before = F.contents shelf.old;
      files_after = F.contents shelf.new;
      shelf_before = before;
      shelf_after = F.faults shelf.new;
      taken_before = O.taken out.old;
      taken_after = O.taken out.new;
      sink_before = O.faults out.old;
      sink_after = O.faults out.new;
    }) (journaled recorded.told.ending recorded.told.transcript.items name.now recorded.journal.items) result }
{
    let journal = recorded.journal.as_slice();
    let transcript = recorded.told.transcript.as_slice();
    if let Err(OutOfMemory) = shelf.reserve(name, journal.len()) {
        return Status::OutOfMemory;
    }
    if let Err(OutOfMemory) = out.reserve(transcript.len()) {
        return Status::OutOfMemory;
    }
    if let Err(Failed) = shelf.write(name, journal) {
        return Status::WriteFault;
    }
    match out.put(transcript) {
        Ok(()) => Status::Done(recorded.told.ending),
        Err(Failed) => Status::WriteFault,
    }
}
