//! What a hart meets at its pc: the fault, the pc after it and the trap, of a context among so many harts, over a memory and
//! with what a fetch at the pc gave. Whoever fetches elsewhere than in that memory, as under planted words, gives the true
//! word.
ghost use Rattle.std.specs.Prelude.{◌≡◌};
ghost use Rattle.atom_mach.specs.Traps.{fault_of_fetched, next_of_fetched, trap_of_fetched, late_trap_of, trap_of};

use hart_ctx::Context;
use hart_step::{After, fault_of, next};
use kdb_bp::Breaks;
use mach_base::{Fault, Hart, Reason};
use mem_map::Map;
use rv_table::EBREAK;

/// The fault of the instruction, if any: that of the fetch, then that of the word.
pub fn fault_of_fetched(
    context: &Context,
    harts: u8,
    map: &Map,
    fetched: Result<u32, Fault>,
) -> Option<Fault>
    ensures { result ≡ fault_of_fetched context.now harts map.now.memory fetched }
{
    match fetched {
        Ok(word) => fault_of(context, harts, map, word),
        Err(fault) => Some(fault),
    }
}

/// The pc after the instruction; nowhere where the fetch faults, or the word leads nowhere.
pub fn next_of_fetched(context: &Context, harts: u8, fetched: Result<u32, Fault>) -> After
    ensures { result ≡ next_of_fetched context.now harts fetched }
{
    match fetched {
        Ok(word) => next(context, harts, word),
        Err(_) => After::Nowhere,
    }
}

/// The trap of the word: an `ebreak`, or a fault.
fn trap_of_fetched(
    context: &Context,
    harts: u8,
    map: &Map,
    fetched: Result<u32, Fault>,
) -> Option<Reason>
    ensures { result ≡ trap_of_fetched context.now harts map.now.memory fetched }
{
    match fetched {
        Err(fault) => Some(Reason::Fault(fault)),
        Ok(EBREAK) => Some(Reason::Compiled),
        Ok(word) => fault_of(context, harts, map, word).map(Reason::Fault),
    }
}

/// The trap of a hart where breakpoints don't count, as beside a session (docs/atomic-machine.md, "Traps and reasons"). `opened` says whether
/// a session was opened before.
pub fn late_trap_of(
    opened: bool,
    hart: Hart,
    context: &Context,
    harts: u8,
    map: &Map,
    fetched: Result<u32, Fault>,
) -> Option<Reason>
    ensures { result ≡ late_trap_of opened hart.0 context.now harts map.now.memory fetched }
{
    if !opened && hart.0 == 0 {
        return Some(Reason::Start);
    }
    if context.halted {
        return None;
    }
    trap_of_fetched(context, harts, map, fetched)
}

/// The trap of a hart over these breakpoint places (docs/atomic-machine.md, "Traps and reasons"). `opened` says whether a session was opened
/// before.
pub fn trap_of(
    opened: bool,
    breaks: &Breaks,
    hart: Hart,
    context: &Context,
    harts: u8,
    map: &Map,
    fetched: Result<u32, Fault>,
) -> Option<Reason>
    ensures { result ≡ trap_of opened breaks.now hart.0 context.now harts map.now.memory fetched }
{
    if !opened && hart.0 == 0 {
        return Some(Reason::Start);
    }
    if context.halted {
        return None;
    }
    if let Some(place) = breaks.enabled_at(context.pc) {
        return Some(Reason::Breakpoint(place));
    }
    trap_of_fetched(context, harts, map, fetched)
}
