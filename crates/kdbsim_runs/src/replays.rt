//! Makes the entries of a journal once more.
ghost use Rattle.std.specs.Prelude.{◌≡◌, ◌≤◌, false, IfOk, IfErr};
ghost use Rattle.mach_base.specs.declared.limits.TheConstants.{MOST_HARTS, MOST_STEPS};
ghost use Rattle.bus_core.specs.Core.{entries_of, ComesFrom};
ghost use Rattle.kdbsim_runs.specs.declared.replays.ReplayFault.TheVariants as replay_faults;
ghost use Rattle.kdbsim_runs.specs.Replay.{IsBadStep, Refuses};

use atom_mach::Script;
use bus_core::{ApplyFault, Core};
use img_text::Image;
use jrn_text::Journal;
use mach_base::OutOfMemory;
use std::alloc::Global;
use sym_map::Symbols;

/// Why a journal was not replayed.
#[derive(Clone, Copy, Debug, PartialEq, Eq)]
pub enum ReplayFault {
    /// The entry of this index, from 0, is the first that isn't legal after those before it.
    BadStep { index: u64 },
    OutOfMemory,
}

impl From<OutOfMemory> for ReplayFault {
    ghost from_gives = { λ _ e. e ≡ replay_faults.OutOfMemory };

    fn from(_error: OutOfMemory) -> ReplayFault {
        ReplayFault::OutOfMemory
    }
}

/// The core once it has made all entries of the journal, from the start of the image, the symbols and the script with the
/// journal's number of harts and limit of steps.
pub fn replay(
    alloc: Global,
    image: &Image,
    names: Symbols,
    script: Script,
    journal: &Journal,
) -> Result<Core, ReplayFault>
    requires some_harts { 1 ≤ journal.now.harts }
    requires few_harts { journal.now.harts ≤ MOST_HARTS }
    requires low { 1 ≤ journal.now.limit }
    requires high { journal.now.limit ≤ MOST_STEPS }
    ensures kept { IfOk result (λ core. core.lost ≡ false) }
    ensures all { IfOk result (λ core. entries_of core ≡ journal.now.entries.entries) }
    ensures origin { IfOk result (ComesFrom (record { image = image.now; symbols = names; lines = script; harts = journal.now.harts; limit = journal.now.limit })) }
    ensures bad_step { IfErr result (Refuses (record { image = image.now; symbols = names; lines = script; harts = journal.now.harts; limit = journal.now.limit }) journal.now.entries.entries) }
{
    let mut core = Core::start(alloc, image, names, script, journal.harts, journal.limit)?;
    for entry in journal.entries.iter() {
        match core.apply(entry) {
            Ok(()) => {}
            Err(ApplyFault::NotLegal) => {
                let index = core.journal().len();
                return Err(ReplayFault::BadStep { index });
            }
            Err(ApplyFault::OutOfMemory) => return Err(ReplayFault::OutOfMemory),
        }
    }
    Ok(core)
}
