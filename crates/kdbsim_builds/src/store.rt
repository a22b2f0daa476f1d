//! Writes what a command makes.
ghost use Rattle.std.specs.Prelude.{◌≤◌, ◌≢◌, ℕ, [], ◌∷◌};
ghost use Rattle.kdbsim_builds.specs.Stored.{IsStored};

use io_edge::{Failed, Shelf};
use kdbsim_files::Status;
use mach_base::OutOfMemory;

/// Makes room for the file, and writes it.
pub fn store<F: Shelf>(shelf: &mut F, name: &str, text: &[u8]) -> Status
    ensures { (before : ℕ) → before ≤ F.faults shelf.old → IsStored (record {
      files_before = F.contents shelf.old;
      files_after = F.contents shelf.new;
      count_before = before;
      count_after = F.faults shelf.new;
    }) ((name.now, text.now) ∷ []) result }
{
    if let Err(OutOfMemory) = shelf.reserve(name, text.len()) {
        return Status::OutOfMemory;
    }
    match shelf.write(name, text) {
        Ok(()) => Status::Made,
        Err(Failed) => Status::WriteFault,
    }
}

/// Makes room for both files, writes the first and then the second. Their names differ, since a write uses up the room of
/// its name.
pub fn store_both<F: Shelf>(
    shelf: &mut F,
    name: &str,
    text: &[u8],
    second_name: &str,
    second_text: &[u8],
) -> Status
    requires apart { second_name.now ≢ name.now }
    ensures { (before : ℕ) → before ≤ F.faults shelf.old → IsStored (record {
      files_before = F.contents shelf.old;
      files_after = F.contents shelf.new;
      count_before = before;
      count_after = F.faults shelf.new;
    }) ((name.now, text.now) ∷ (second_name.now, second_text.now) ∷ []) result }
{
    if let Err(OutOfMemory) = shelf.reserve(name, text.len()) {
        return Status::OutOfMemory;
    }
    if let Err(OutOfMemory) = shelf.reserve(second_name, second_text.len()) {
        return Status::OutOfMemory;
    }
    if let Err(Failed) = shelf.write(name, text) {
        return Status::WriteFault;
    }
    match shelf.write(second_name, second_text) {
        Ok(()) => Status::Made,
        Err(Failed) => Status::WriteFault,
    }
}
