//! The run of one hart.
ghost use Rattle.std.specs.Prelude.{[], IfOk};
ghost use Rattle.atom_mach.specs.State.{start_state};
ghost use Rattle.atom_mach.specs.Run.{IsTranscript, first_allowed};
ghost use Rattle.kdbsim_top.specs.Runs.{uni_limit};

use atom_mach::{Atom, Script, push_ending_line};
use img_text::Image;
use kdbsim_runs::Told;
use mach_base::OutOfMemory;
use std::alloc::Global;
use sym_map::Symbols;

/// The limit of steps of `uni`.
const UNI_LIMIT: u64 = 1_000_000;

/// Runs a machine with one hart to its end.
pub fn run_uni(alloc: Global, image: &Image, script: Script) -> Result<Told, OutOfMemory>
    ensures { IfOk result (λ told. IsTranscript first_allowed (start_state image.now [] script 1 uni_limit) told.ending told.transcript.items) }
{
    let names = Symbols::empty(alloc);
    let mut atom = Atom::start(alloc, image, names, script, 1, UNI_LIMIT)?;
    let mut transcript = Vec::new(alloc);
    loop {
        if let Some(ending) = atom.over() {
            push_ending_line(&mut transcript, ending, atom.steps())?;
            return Ok(Told { ending, transcript });
        }
        let text = atom.turn()?;
        transcript.extend_from_slice(text.as_bytes())?;
    }
}
