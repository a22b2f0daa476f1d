ghost use Rattle.std.specs.Prelude.{◌≡◌, ◌+◌, ◌-◌, ◌/◌};
ghost use Rattle.mach_base.specs.Bytes.{IsWidth};
ghost use Rattle.kdb_cmd.specs.Desk.{IsReady, IsSameDesk, Changes};
ghost use Rattle.kdb_cmd.specs.command.MemoryChange.{write_answer, mm_answer};

use crate::Said;
use crate::desk::Desk;
use crate::outcomes::stay;
use hart_ctx::{end_reservations, granule_of};
use kdb_mem::modify;
use kdb_table::Refusal;
use kdb_view::{Values, memory_refusal};
use mach_base::{Peek, Text};

/// The granule of the last of this many bytes from an address on.
fn last_granule(addr: u64, width: u8) -> u64
    requires { IsWidth width }
    ensures { result ≡ (addr + width - 1) / 8 }
{
    addr / 8 + (addr % 8 + u64::from(width) - 1) / 8
}

/// Writes a value in so many bytes from an address on.
#[tactic(auto, using(crate::proofs::Changed::refused), unfolding(crate::specs::command::MemoryChange::write_answer))]
fn write<P: Peek>(desk: &mut Desk<P>, addr: u64, width: u8, value: u64) -> Result<Said, Refusal>
    requires width { IsWidth width }
    ensures answer { Changes P.memory result desk.old desk.new (λ _. write_answer addr width value) }
    ensures same { IsSameDesk P.rest desk.old desk.new }
    ensures kdb { desk.new.kdb.now ≡ desk.old.kdb.now }
{
    let mut out = Vec::new(desk.alloc);
    match modify(desk.mem, &mut out, addr, width, value) {
        Ok(()) => {
            end_reservations(desk.ctxs, granule_of(addr), last_granule(addr, width));
            Ok(stay(Text::from_vec(out)))
        }
        Err(fault) => Err(memory_refusal(fault)),
    }
}

/// `mm E E`, `mmW E E`.
pub fn mm<P: Peek>(desk: &mut Desk<P>, width: u8, values: Values) -> Result<Said, Refusal>
    requires width { IsWidth width }
    ensures answer { Changes P.memory result desk.old desk.new (λ _. mm_answer width values) }
    ensures same { IsSameDesk P.rest desk.old desk.new }
    ensures kdb { desk.new.kdb.now ≡ desk.old.kdb.now }
{
    write(desk, values.address(), width, values.second.unwrap_or(0))
}
