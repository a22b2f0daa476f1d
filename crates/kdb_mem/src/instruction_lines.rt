ghost use Rattle.std.specs.Prelude.{◌≡◌, ◌+◌, ◌*◌, ◌<◌, ◌≤◌, ◌^◌, ◌++◌, Err, OnOk, OnErr, IfNone, IsOkUnless, MatchOption};
ghost use Rattle.kdb_mem.specs.declared.mem_fault.MemFault.TheVariants.{BadAddr, OutOfMemory};
ghost use Rattle.kdb_mem.specs.Range.{first_refused};
ghost use Rattle.kdb_mem.specs.Shown.{instruction_line, instructions_text};

use crate::MemFault;
use crate::lines::Pushed;
use crate::range::{first_unmapped, word_of_4};
use mach_base::{Peek, push_address, push_bytes, push_newline};
use rv_asm::push_insn;

/// Appends `count` lines of one instruction of 4 bytes each, from `addr` on: its address and its spelling. BadAddr comes
/// exactly where `addr` is no multiple of 4, or else not all of the instructions are mapped. A refusal leaves `out` as it
/// was.
pub fn insns<P: Peek>(mem: &P, out: &mut Vec<u8>, addr: u64, count: u32) -> Result<(), MemFault>
    ensures refused { MatchOption (first_refused (P.memory mem.now) addr (count * 4)) (IsOkUnless result MemFault.OutOfMemory) (λ bad. result ≡ Err (MemFault.BadAddr bad)) }
    ensures ok { OnOk result (out.new.items ≡ out.old.items ++ instructions_text (P.memory mem.now) addr count) }
    ensures err { OnErr result (out.new.items ≡ out.old.items) }
{
    match first_refused(mem, addr, u64::from(count) * 4) {
        Some(bad) => return Err(MemFault::BadAddr(bad)),
        None => (),
    }
    let mut text = Vec::new(*out.allocator());
    push_instruction_lines(mem, &mut text, addr, count)?;
    push_bytes(out, text.as_slice())?;
    Ok(())
}

/// The address at which instructions of so many bytes in all are refused: their first, where it is no multiple of 4; else
/// the first that isn't mapped.
fn first_refused<P: Peek>(mem: &P, addr: u64, len: u64) -> Option<u64>
    requires { len < 2 ^ 40 }
    ensures value { result ≡ first_refused (P.memory mem.now) addr len }
    ensures low { IfNone result (0 < len → addr < 2 ^ 63) }
{
    if addr % 4 == 0 {
        first_unmapped(mem, addr, len)
    } else {
        Some(addr)
    }
}

fn push_instruction_lines<P: Peek>(mem: &P, out: &mut Vec<u8>, addr: u64, count: u32) -> Pushed
    requires { 0 < count → addr < 2 ^ 63 }
    ensures { OnOk result (out.new.items ≡ out.old.items ++ instructions_text (P.memory mem.now) addr count) }
{
    for line in 0..count {
        push_instruction_line(mem, out, addr + 4 * u64::from(line))?;
    }
    Ok(())
}

#[tactic(auto, unfolding(crate::specs::Shown::instruction_line))]
fn push_instruction_line<P: Peek>(mem: &P, out: &mut Vec<u8>, addr: u64) -> Pushed
    requires { addr + 4 ≤ 2 ^ 64 }
    ensures { OnOk result (out.new.items ≡ out.old.items ++ instruction_line (P.memory mem.now) addr) }
{
    push_address(out, addr)?;
    push_bytes(out, b" ")?;
    push_insn(out, word_of_4(mem, addr))?;
    push_newline(out)?;
    Ok(())
}
