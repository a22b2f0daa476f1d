//! The commands `asm` and `elf`.
ghost use Rattle.std.specs.Prelude.{◌≢◌};
ghost use Rattle.kdbsim_files.specs.Files.{elf_file, source_file};
ghost use Rattle.kdbsim_builds.specs.Builds.{ExplainsBuild, IsAssembled, IsConverted};

use crate::store::{store, store_both};
use crate::texts::{elf_texts, source_text};
use io_edge::Shelf;
use kdbsim_files::Status;
use std::alloc::Global;

/// Reads a source, and writes the image that it means.
pub fn assemble<F: Shelf>(alloc: Global, shelf: &mut F, source: &str, image: &str) -> Status
    ensures cause { ExplainsBuild (IsAssembled (F.contents shelf.old) source.now image.now) source_file source.now (record {
      files_before = F.contents shelf.old;
      files_after = F.contents shelf.new;
      count_before = F.faults shelf.old;
      count_after = F.faults shelf.new;
    }) result }
{
    match source_text(alloc, shelf, source) {
        Ok(text) => store(shelf, image, text.as_slice()),
        Err(status) => status,
    }
}

/// Reads an executable, and writes its image, then the map of its symbols. Where the map's write fails, the image stands.
pub fn convert<F: Shelf>(
    alloc: Global,
    shelf: &mut F,
    executable: &str,
    image: &str,
    map: &str,
) -> Status
    requires apart { map.now ≢ image.now }
    ensures cause { ExplainsBuild (IsConverted (F.contents shelf.old) executable.now image.now map.now) elf_file executable.now (record {
      files_before = F.contents shelf.old;
      files_after = F.contents shelf.new;
      count_before = F.faults shelf.old;
      count_after = F.faults shelf.new;
    }) result }
{
    match elf_texts(alloc, shelf, executable) {
        Ok(pair) => store_both(
            shelf,
            image,
            pair.image.as_slice(),
            map,
            pair.map.as_slice(),
        ),
        Err(status) => status,
    }
}
