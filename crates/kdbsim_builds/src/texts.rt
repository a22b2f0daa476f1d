//! The texts of the files that a command makes.
ghost use Rattle.std.specs.Prelude.{◌≡◌, ◌≤◌, Ok, IfErr, IfOk, IsTrue, MatchResult};
ghost use Rattle.mem_map.specs.Parts.{segments_of};
ghost use Rattle.img_text.specs.Reading.{has_text, image_of};
ghost use Rattle.kdbsim_files.specs.Files.{FailsAtFile, elf_file, source_file};
ghost use Rattle.kdbsim_files.specs.declared.status.Status.TheVariants.{OutOfMemory as NoMemory};
ghost use Rattle.kdbsim_builds.specs.Builds.{IsElfPair, IsSourceImage};

use elf_img::Loaded;
use img_text::{Image, write_image};
use io_edge::Shelf;
use kdbsim_files::{Status, elf_input, source_input};
use mach_base::OutOfMemory;
use std::alloc::Global;

/// The texts of an image and of a map.
#[derive(Drop)]
pub struct Pair {
    pub image: Vec<u8>,
    pub map: Vec<u8>,
}

/// Reads a source, and gives the text of the image that it means.
pub fn source_text<F: Shelf>(alloc: Global, shelf: &mut F, source: &str) -> Result<Vec<u8>, Status>
    ensures text { IfOk result (λ text. IsSourceImage (F.contents shelf.old) source.now text.items) }
    ensures fails { IfErr result (FailsAtFile (F.contents shelf.old) source_file source.now (F.faults shelf.old) (F.faults shelf.new)) }
    ensures kept { F.contents shelf.new ≡ F.contents shelf.old }
    ensures count { F.faults shelf.old ≤ F.faults shelf.new }
{
    let image = source_input(alloc, shelf, source)?;
    image_text(alloc, &image)
}

/// Reads an executable, and gives the texts of its image and of its map.
pub fn elf_texts<F: Shelf>(alloc: Global, shelf: &mut F, executable: &str) -> Result<Pair, Status>
    ensures texts { IfOk result (λ pair. IsElfPair (F.contents shelf.old) executable.now pair.image.items pair.map.items) }
    ensures fails { IfErr result (FailsAtFile (F.contents shelf.old) elf_file executable.now (F.faults shelf.old) (F.faults shelf.new)) }
    ensures kept { F.contents shelf.new ≡ F.contents shelf.old }
    ensures count { F.faults shelf.old ≤ F.faults shelf.new }
{
    let Loaded { image, map } = elf_input(alloc, shelf, executable)?;
    let image = image_text(alloc, &image)?;
    Ok(Pair {
        image,
        map: map.into_vec(),
    })
}

/// A text that reads as the image, or that memory ran out.
fn image_text(alloc: Global, image: &Image) -> Result<Vec<u8>, Status>
    requires text { IsTrue (has_text (segments_of image.now.parts)) }
    ensures { MatchResult result (λ text. image_of text.items ≡ Ok image.now) (λ status. status ≡ NoMemory) }
{
    match write_image(alloc, image) {
        Ok(text) => Ok(text),
        Err(OutOfMemory) => Err(Status::OutOfMemory),
    }
}
