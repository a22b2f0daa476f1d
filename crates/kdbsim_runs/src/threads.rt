//! Runs in which each hart has a worker thread.
ghost use Rattle.std.specs.Prelude.{◌≡◌, ◌<◌, ◌≤◌, ◌≢◌, false, None, IfOk};
ghost use Rattle.mach_base.specs.declared.limits.TheConstants.{MOST_HARTS, MOST_STEPS};
ghost use Rattle.bus_core.specs.Core.{machine_of, ComesFrom};

use crate::Pace;
use atom_mach::Script;
use board_turn::Board;
use bus_calls::CoreBus;
use deck_core::Pause;
use img_text::Image;
use mach_base::OutOfMemory;
use run_join::run_all;
use std::alloc::Global;
use std::sync::Wait;
use std::thread::Threads;
use sym_map::Symbols;

/// The bus after a run of the harts beside each other, each in a thread of its own, from the start of the image, the symbols
/// and the script, until each has seen an ending. A worker whose hart can't go on pauses on its own copy of `pause`. That the
/// harts come to an ending isn't promised: a run may wait for ever.
pub fn run_threads<R: Threads + Wait + Sync, P: Pause + Copy + Send>(
    rt: &R,
    alloc: Global,
    image: &Image,
    names: Symbols,
    script: Script,
    pace: Pace,
    pause: P,
) -> Result<CoreBus, OutOfMemory>
    requires some_harts { 1 ≤ pace.harts }
    requires few_harts { pace.harts ≤ MOST_HARTS }
    requires low { 1 ≤ pace.limit }
    requires high { pace.limit ≤ MOST_STEPS }
    requires rounds { 0 < pace.rounds }
    ensures kept { IfOk result (λ bus. bus.core.lost ≡ false) }
    ensures ended { IfOk result (λ bus. (machine_of bus.core).ending ≢ None) }
    ensures origin { IfOk result (λ bus. ComesFrom (record { image = image.now; symbols = names; lines = script; harts = pace.harts; limit = pace.limit }) bus.core) }
{
    let bus = CoreBus::start(alloc, image, names, script, pace.harts, pace.limit)?;
    let seated = Board::new(alloc, bus, pace.rounds)?;
    let bus = run_all(rt, alloc, seated, pace.harts, pace.rounds, pause)?;
    if bus.core().lost() {
        return Err(OutOfMemory);
    }
    Ok(bus)
}
