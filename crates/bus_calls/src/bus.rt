//! The core as a bus.
ghost use Rattle.std.specs.Prelude.{◌≡◌, ◌+◌, ◌-◌, ◌*◌, ◌≤◌, ◌<◌, ◌^◌, suc};
ghost use Rattle.mach_base.specs.declared.limits.TheConstants.{MOST_LINES, MOST_STEPS};
ghost use Rattle.atom_mach.specs.State.{hart_count};
ghost use Rattle.bus_core.specs.Core.{machine_of as core_machine};
ghost use Rattle.bus_calls.specs.declared.bus.TheConstants.{MOST_SENDS};
ghost use Rattle.bus_calls.specs.Running.{KeepsRunning};

mod calls;
mod lines;
mod making;
mod notes;
mod turns;

use atom_mach::Script;
use bus_core::{Core, Room};
use img_text::Image;
use mach_base::{Ending, OutOfMemory};
use plant_room::starts_have_room;
use std::alloc::Global;
use sym_map::Symbols;

/// The most calls that are sent in a run: one to each of 15 other harts at the start, and after each of 4,096 lines.
pub const MOST_SENDS: u64 = 61_455;

/// What stood when a line began: the mask of the harts that its session held, and the number of lines read.
#[derive(Clone, Copy, Debug, PartialEq, Eq)]
pub struct Stood {
    pub mask: u64,
    pub lines: u64,
}

/// The core as a bus of the protocol.
#[derive(Drop)]
pub struct CoreBus {
    core: Core,
    /// How many calls to other harts were sent.
    sends: u64,
    /// Whether a step word was planted since the last line.
    stepped: bool,
    /// Whether the session's mask was taken away after the end.
    released: bool,
    stood: Stood,
    ghost running: { ∥ KeepsRunning core sends stepped released ∥₁ },
    ghost few_sends: { sends ≤ MOST_SENDS },
    ghost stood_mask: { stood.mask < 2 ^ hart_count (core_machine core).machine },
    ghost stood_lines: { stood.lines ≤ MOST_LINES },
}

impl CoreBus {
    ghost use Rattle.std.specs.Prelude.{◌≡◌, ◌≤◌, ◌<◌, ◌^◌, [], false, IfOk};
    ghost use Rattle.mach_base.specs.declared.limits.TheConstants.{MOST_HARTS, MOST_LINES, MOST_STEPS};
    ghost use Rattle.deck_core.specs.contract.Told.{IsTold, IsOpening};
    ghost use Rattle.atom_mach.specs.State.{hart_count};
    ghost use Rattle.plant_mach.specs.Machine.{planted_start};
    ghost use Rattle.bus_core.specs.Core.{machine_of, entries_of, text_of, ComesFrom};
    ghost use Rattle.bus_calls.specs.Running.{KeepsRunning};
    ghost use Rattle.bus_calls.specs.Bus.{told, is_over, ending_of};

    /// The bus at the start, with this many harts, 1 to 16, and at most `limit` steps to make, 1 to 4,000,000, as the core
    /// starts; all room that a run needs is reserved.
    pub fn start(
        alloc: Global,
        image: &Image,
        names: Symbols,
        script: Script,
        harts: u8,
        limit: u64,
    ) -> Result<CoreBus, OutOfMemory>
        requires some_harts { 1 ≤ harts }
        requires few_harts { harts ≤ MOST_HARTS }
        requires low { 1 ≤ limit }
        requires high { limit ≤ MOST_STEPS }
        ensures machine { IfOk result (λ bus. machine_of bus.core ≡ planted_start image.now names script harts limit) }
        ensures journal { IfOk result (λ bus. entries_of bus.core ≡ []) }
        ensures opening { IfOk result (λ bus. IsOpening (told bus)) }
        ensures harts { IfOk result (λ bus. (told bus).harts ≡ harts) }
        ensures origin { IfOk result (λ bus. ComesFrom (record { image = image.now; symbols = names; lines = script; harts = harts; limit = limit }) bus.core) }
    {
        starts_have_room();
        let room = room_for(script.len(), harts, limit);
        let core = Core::start_with_room(alloc, image, names, script, harts, limit, room)?;
        core.keeps_bounds();
        Ok(CoreBus {
            core,
            sends: 0,
            stepped: false,
            released: false,
            stood: Stood { mask: 0, lines: 0 },
        })
    }

    /// The core, with its journal and its transcript.
    pub fn core(&self) -> &Core
        ensures { result.now ≡ self.now.core }
    {
        &self.core
    }

    /// The core, once the run is over.
    pub fn into_core(self) -> Core
        ensures { result ≡ self.core }
    {
        self.core
    }

    /// Whether an ending stands, or a line ran out of memory.
    pub fn is_over(&self) -> bool
        ensures { result ≡ is_over self.now }
    {
        self.core.lost() || self.core.over().is_some()
    }

    /// The ending that stands, if any.
    pub fn ending(&self) -> Option<Ending>
        ensures { result ≡ ending_of self.now }
    {
        if self.core.lost() {
            None
        } else {
            self.core.over()
        }
    }

    /// What the bus tells is in range. The call does nothing; its contract says so to callers.
    pub fn keeps_told(&self)
        ensures { IsTold (told self.now) }
    {
        self.core.keeps_bounds();
        let _bus = self.stood;
    }
}

/// The room that a run of so many lines needs, with this many harts and limit of steps.
fn room_for(lines: usize, harts: u8, limit: u64) -> Room
    requires lines { lines ≤ MOST_LINES }
    requires harts { 1 ≤ harts }
    requires limit { limit ≤ MOST_STEPS }
    ensures journal { result.journal ≡ limit + 10 * (2 * ((harts - 1) * suc lines) + 52 * lines + 2) }
    ensures text { result.text ≡ limit + 240 * (lines + 2) }
{
    let sends = (usize::from(harts) - 1) * (lines + 1);
    let limit = limit as usize;
    Room {
        journal: limit + 10 * (2 * sends + 52 * lines + 2),
        text: limit + 240 * (lines + 2),
    }
}
