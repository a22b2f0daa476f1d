//! Reading of a whole executable.

ghost use Rattle.std.specs.Prelude.{◌≡◌, map, Ok, IsTrue, IfOk};
ghost use Rattle.mem_map.specs.Parts.{segments_of};
ghost use Rattle.img_text.specs.Reading.{has_text};
ghost use Rattle.sym_map.specs.Reading.{symbols_of};
ghost use Rattle.elf_img.specs.Causes.{Passes};
ghost use Rattle.elf_img.specs.MapText.{map_text, named};
ghost use Rattle.elf_img.specs.Segments.{elf_image};
ghost use Rattle.elf_img.specs.Symbols.{symbols};
ghost use Rattle.elf_img.specs.Reading.{causes};

use crate::fault::ElfFault;
use crate::header::{check_header, entry};
use crate::image::build;
use crate::program::read_loads;
use crate::segments::{check_segments, check_sizes, segments_of};
use crate::symbols::read_map;
use img_text::Image;
use mach_base::Text;
use std::alloc::Global;

/// What an executable gives: the image of its memory, and the text of a map of its symbols.
#[derive(Drop)]
pub struct Loaded {
    pub image: Image,
    pub map: Text,
}

/// Reads an executable for RISC-V of 64 bits, as the ELF-64 object file format has it. `Bad` says what is wrong with it
/// first, and `TooLarge` which size is over its limit, in the order of docs/formats.md, "ELF executables".
pub fn read_elf(alloc: Global, file: &[u8]) -> Result<Loaded, ElfFault>
    ensures checked { Passes result (causes file.now) }
    ensures image { IfOk result (λ loaded. loaded.image ≡ elf_image file.now) }
    ensures text { IfOk result (λ loaded. IsTrue (has_text (segments_of loaded.image.parts))) }
    ensures map { IfOk result (λ loaded. loaded.map ≡ map_text (symbols file.now)) }
    ensures reads { IfOk result (λ loaded. symbols_of loaded.map ≡ Ok (map named (symbols file.now))) }
{
    check_header(file)?;
    let found = read_loads(alloc, file)?;
    let loads = found.as_slice();
    let made = segments_of(alloc, file.len() as u64, loads)?;
    let segments = made.as_slice();
    check_segments(segments)?;
    check_sizes(loads)?;
    let map = read_map(alloc, file)?;
    let image = build(alloc, file, loads, entry(file))?;
    Ok(Loaded { image, map })
}
