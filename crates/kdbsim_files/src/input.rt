//! Reads the files of a command.
ghost use Rattle.std.specs.Prelude.{◌≡◌, ◌≤◌, length, IfOk, IfErr, IsTrue, MatchResult};
ghost use Rattle.io_edge.specs.Edge.{IsTold};
ghost use Rattle.mem_map.specs.Parts.{segments_of};
ghost use Rattle.img_text.specs.Reading.{has_text};
ghost use Rattle.plan_text.specs.Ticks.{AreBelow, ticks_of};
ghost use Rattle.kdbsim_files.specs.Files.{bytes_of_file, size_limit, image_file, map_file, script_file, plan_file, journal_file, source_file, elf_file, FailsAtFile, FailsBefore, IsInput, IsLoaded, IsReadJournal};

use crate::{File, Status};
use asm_text::{a_source_is_what_its_lines_give, read_source};
use atom_mach::{Script, check_script};
use elf_img::{Loaded, read_elf};
use img_text::{Image, read_image};
use io_edge::{ReadFail, Shelf};
use jrn_text::{Journal, read_journal};
use mach_base::{
    ELF_BYTES, IMAGE_BYTES, JOURNAL_BYTES, MAP_BYTES, PLAN_BYTES, SCRIPT_BYTES, SOURCE_BYTES, What,
};
use plan_text::{Plan, read_plan};
use std::alloc::Global;
use sym_map::Symbols;

/// Reads the image of a name, and finds what is wrong with it.
pub fn image_input<F: Shelf>(alloc: Global, shelf: &mut F, name: &str) -> Result<Image, Status>
    ensures image { IsInput (F.contents shelf.old) image_file name.now (F.faults shelf.old) (F.faults shelf.new) result }
    ensures kept { F.contents shelf.new ≡ F.contents shelf.old }
    ensures count { F.faults shelf.old ≤ F.faults shelf.new }
{
    let bytes = read_input(alloc, shelf, File::Image, name)?;
    Ok(read_image(alloc, bytes.as_slice())?)
}

/// Reads the map of a name, and finds what is wrong with it.
pub fn map_input<F: Shelf>(alloc: Global, shelf: &mut F, name: &str) -> Result<Symbols, Status>
    ensures map { IsInput (F.contents shelf.old) map_file name.now (F.faults shelf.old) (F.faults shelf.new) result }
    ensures kept { F.contents shelf.new ≡ F.contents shelf.old }
    ensures count { F.faults shelf.old ≤ F.faults shelf.new }
{
    let bytes = read_input(alloc, shelf, File::Map, name)?;
    Ok(Symbols::read(alloc, bytes.as_slice())?)
}

/// Reads the script of a name, and finds what is wrong with it.
pub fn script_input<F: Shelf>(alloc: Global, shelf: &mut F, name: &str) -> Result<Script, Status>
    ensures script { IsInput (F.contents shelf.old) script_file name.now (F.faults shelf.old) (F.faults shelf.new) result }
    ensures kept { F.contents shelf.new ≡ F.contents shelf.old }
    ensures count { F.faults shelf.old ≤ F.faults shelf.new }
{
    let bytes = read_input(alloc, shelf, File::Script, name)?;
    Ok(check_script(alloc, bytes.as_slice())?)
}

/// Reads the plan of a name for so many harts, and finds what is wrong with it.
pub fn plan_input<F: Shelf>(
    alloc: Global,
    shelf: &mut F,
    name: &str,
    harts: u8,
) -> Result<Plan, Status>
    ensures plan { IsInput (F.contents shelf.old) (plan_file harts) name.now (F.faults shelf.old) (F.faults shelf.new) result }
    ensures below { IfOk result (λ plan. AreBelow harts (ticks_of plan)) }
    ensures kept { F.contents shelf.new ≡ F.contents shelf.old }
    ensures count { F.faults shelf.old ≤ F.faults shelf.new }
{
    let bytes = read_input(alloc, shelf, File::Plan, name)?;
    Ok(read_plan(alloc, bytes.as_slice(), harts)?)
}

/// Reads the journal of a name, and finds what is wrong with it.
pub fn journal_input<F: Shelf>(alloc: Global, shelf: &mut F, name: &str) -> Result<Journal, Status>
    ensures journal { MatchResult result (IsReadJournal (F.contents shelf.old) name.now) (FailsAtFile (F.contents shelf.old) journal_file name.now (F.faults shelf.old) (F.faults shelf.new)) }
    ensures kept { F.contents shelf.new ≡ F.contents shelf.old }
    ensures count { F.faults shelf.old ≤ F.faults shelf.new }
{
    let bytes = read_input(alloc, shelf, File::Journal, name)?;
    Ok(read_journal(alloc, bytes.as_slice())?)
}

/// Reads the source of a name, finds what is wrong with it, and gives the image that it means.
pub fn source_input<F: Shelf>(alloc: Global, shelf: &mut F, name: &str) -> Result<Image, Status>
    ensures source { IsInput (F.contents shelf.old) source_file name.now (F.faults shelf.old) (F.faults shelf.new) result }
    ensures text { IfOk result (λ image. IsTrue (has_text (segments_of image.parts))) }
    ensures kept { F.contents shelf.new ≡ F.contents shelf.old }
    ensures count { F.faults shelf.old ≤ F.faults shelf.new }
{
    let bytes = read_input(alloc, shelf, File::Source, name)?;
    a_source_is_what_its_lines_give();
    Ok(read_source(alloc, bytes.as_slice())?)
}

/// Reads the executable of a name, finds what is wrong with it, and gives its image and the text of its map.
pub fn elf_input<F: Shelf>(alloc: Global, shelf: &mut F, name: &str) -> Result<Loaded, Status>
    ensures elf { MatchResult result (IsLoaded (F.contents shelf.old) name.now) (FailsAtFile (F.contents shelf.old) elf_file name.now (F.faults shelf.old) (F.faults shelf.new)) }
    ensures text { IfOk result (λ loaded. IsTrue (has_text (segments_of loaded.image.parts))) }
    ensures kept { F.contents shelf.new ≡ F.contents shelf.old }
    ensures count { F.faults shelf.old ≤ F.faults shelf.new }
{
    let bytes = read_input(alloc, shelf, File::Elf, name)?;
    Ok(read_elf(alloc, bytes.as_slice())?)
}

/// Reads a file of a name to its end, and refuses one that is too large.
fn read_input<F: Shelf>(
    alloc: Global,
    shelf: &mut F,
    file: File,
    name: &str,
) -> Result<Vec<u8>, Status>
    ensures told { IfOk result (λ bytes. IsTold (F.contents shelf.old) name.now bytes.items) }
    ensures short { IfOk result (λ bytes. length bytes.items ≤ size_limit file) }
    ensures fails { IfErr result (FailsBefore (F.contents shelf.old) file name.now (F.faults shelf.old) (F.faults shelf.new)) }
    ensures kept { F.contents shelf.new ≡ F.contents shelf.old }
    ensures count { F.faults shelf.old ≤ F.faults shelf.new }
{
    let bytes = match shelf.read(alloc, name) {
        Ok(bytes) => bytes,
        Err(ReadFail::Failed) => return Err(Status::ReadFault(file)),
        Err(ReadFail::OutOfMemory) => return Err(Status::OutOfMemory),
    };
    if bytes.len() > size_limit(file) {
        return Err(Status::TooLarge {
            what: bytes_of_file(file),
            size: bytes.len() as u64,
        });
    }
    Ok(bytes)
}

/// The most bytes of a file.
fn size_limit(file: File) -> usize
    ensures { result ≡ size_limit file }
{
    match file {
        File::Image => IMAGE_BYTES,
        File::Map => MAP_BYTES,
        File::Script => SCRIPT_BYTES,
        File::Plan => PLAN_BYTES,
        File::Journal => JOURNAL_BYTES,
        File::Source => SOURCE_BYTES,
        File::Elf => ELF_BYTES,
    }
}

/// What a file of more bytes has too much of.
fn bytes_of_file(file: File) -> What
    ensures { result ≡ bytes_of_file file }
{
    match file {
        File::Image => What::ImageBytes,
        File::Map => What::MapBytes,
        File::Script => What::ScriptBytes,
        File::Plan => What::PlanBytes,
        File::Journal => What::JournalBytes,
        File::Source => What::SourceBytes,
        File::Elf => What::ElfBytes,
    }
}
