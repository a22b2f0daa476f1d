//! The planted machine from the inside; what is seen of it, which entries are legal and how each is made are in the folder
//! `inner`.
ghost use Rattle.std.specs.Prelude.{◌≡◌, ◌+◌, ◌<◌, ◌≤◌, length, vec_len};
ghost use Rattle.mach_base.specs.declared.limits.TheConstants.{MOST_HARTS, MOST_LINES, MOST_STEPS};
ghost use Rattle.plant_mach.specs.Order.{IsSeated};
ghost use Rattle.bus_core.specs.Seated.{owed, IsGathered, IsSeated-prop, IsGathered-prop};

mod beginning;
mod lines;
pub mod making;
mod moves;
mod planting;
mod seen;
mod sessions;
mod tests_of_entries;
mod tests_of_harts;

use atom_mach::Script;
use bus_plant::Planted;
use deck_core::Sitting;
use hart_ctx::Context;
use kdb_cmd::Kdb;
use mach_base::Ending;
use std::alloc::Global;
use sym_map::Symbols;

/// The planted machine from the inside.
#[derive(Drop)]
pub struct Inner {
    pub alloc: Global,
    /// One for each hart, 1 to 16.
    pub contexts: Vec<Context>,
    pub memory: Planted,
    pub kdb: Kdb,
    pub names: Symbols,
    pub script: Script,
    /// How many lines of the script were read.
    pub read: usize,
    pub limit: u64,
    pub steps: u64,
    pub opened: bool,
    /// For each hart whether a call of it is pending.
    pub calls: Vec<bool>,
    pub session: Option<Sitting>,
    pub ending: Option<Ending>,
    ghost some_harts: { 1 ≤ vec_len contexts },
    ghost few_harts: { vec_len contexts ≤ MOST_HARTS },
    ghost each_call: { vec_len calls ≡ vec_len contexts },
    ghost in_range: { read ≤ length script },
    ghost few_lines: { length script ≤ MOST_LINES },
    ghost few_steps: { limit ≤ MOST_STEPS },
    ghost bounded: { steps + owed session ≤ limit + read },
    ghost owed_lines: { owed session ≤ read },
    ghost current: { kdb.current < vec_len contexts },
    ghost seated: { IsSeated (vec_len contexts) session } by { IsSeated-prop (vec_len contexts) session },
    ghost gathered: { IsGathered session kdb.current } by { IsGathered-prop session kdb.current },
}
