//! What a machine starts from, by the files that the words name.
ghost use Rattle.std.specs.Prelude.{◌≡◌, ◌≤◌, [], MatchResult};
ghost use Rattle.kdbsim_files.specs.Files.{FailsAt};
ghost use Rattle.kdbsim_top.specs.Runs.{HasStart, start_inputs};

use atom_mach::Script;
use img_text::Image;
use io_edge::Shelf;
use kdbsim_files::{Status, image_input, map_input, script_input};
use std::alloc::Global;
use sym_map::Symbols;

/// The names of the files that say what a machine starts from.
#[derive(Clone, Copy, Debug)]
pub struct StartNames<'a> {
    pub image: &'a str,
    pub map: &'a str,
    pub script: &'a str,
}

/// What a machine starts from.
#[derive(Drop)]
pub struct Start {
    pub image: Image,
    pub names: Symbols,
    pub script: Script,
}

/// Reads the image, the map and the script, in this order.
pub fn read_start<F: Shelf>(
    alloc: Global,
    shelf: &mut F,
    names: StartNames<'_>,
) -> Result<Start, Status>
    ensures start { MatchResult result
        (λ s. HasStart (F.contents shelf.old) names.entry.image.now names.entry.map.now names.entry.script.now s.image s.names s.script)
        (FailsAt (F.contents shelf.old) (start_inputs names.entry.image.now names.entry.map.now names.entry.script.now []) (F.faults shelf.old) (F.faults shelf.new)) }
    ensures kept { F.contents shelf.new ≡ F.contents shelf.old }
    ensures count { F.faults shelf.old ≤ F.faults shelf.new }
{
    let image = image_input(alloc, shelf, names.image)?;
    let symbols = map_input(alloc, shelf, names.map)?;
    let script = script_input(alloc, shelf, names.script)?;
    Ok(Start {
        image,
        names: symbols,
        script,
    })
}
