ghost use Rattle.std.specs.Prelude.{◌≡◌, ◌*◌, ◌+◌, ◌<◌, ◌^◌, ◌++◌, nat_lt, Err, None, IfNone, OnOk, OnErr, IsOkUnless, MatchOption};
ghost use Rattle.kdb_mem.specs.declared.mem_fault.MemFault.TheVariants.{OutOfMemory};
ghost use Rattle.mach_base.specs.Bytes.{IsWidth, with_value};
ghost use Rattle.kdb_mem.specs.Range.{first_unmapped};
ghost use Rattle.kdb_mem.specs.Changed.{width_refusal, modify_refusal, modify_text};

use crate::MemFault;
use crate::range::first_unmapped;
use mach_base::{Peek, push_address, push_bytes, push_newline};

/// Writes the value in `width` bytes at `addr`, little-endian, and appends the line that says so: both as addresses.
/// BadAddr comes exactly where not all of the bytes are mapped, and else TooWide exactly where the value needs more of
/// them. A refusal leaves memory and `out` as they were; what else `mem` holds stays in any case.
pub fn modify<P: Peek>(
    mem: &mut P,
    out: &mut Vec<u8>,
    addr: u64,
    width: u8,
    value: u64,
) -> Result<(), MemFault>
    requires { IsWidth width }
    ensures refused { MatchOption (modify_refusal (P.memory mem.old) addr width value) (IsOkUnless result MemFault.OutOfMemory) (λ fault. result ≡ Err fault) }
    ensures text { OnOk result (out.new.items ≡ out.old.items ++ modify_text addr value) }
    ensures written { OnOk result (P.memory mem.new ≡ with_value (P.memory mem.old) addr width value) }
    ensures same_text { OnErr result (out.new.items ≡ out.old.items) }
    ensures same_memory { OnErr result (mem.new ≡ mem.old) }
    ensures rest { P.rest mem.new ≡ P.rest mem.old }
{
    match modify_refusal(mem, addr, width, value) {
        Some(fault) => return Err(fault),
        None => (),
    }
    push_modification(out, addr, value)?;
    write(mem, addr, width, value);
    Ok(())
}

fn modify_refusal<P: Peek>(mem: &P, addr: u64, width: u8, value: u64) -> Option<MemFault>
    requires { IsWidth width }
    ensures value { result ≡ modify_refusal (P.memory mem.now) addr width value }
    ensures mapped { IfNone result (first_unmapped (P.memory mem.now) addr width ≡ None) }
    ensures low { IfNone result (addr < 2 ^ 63) }
{
    match first_unmapped(mem, addr, u64::from(width)) {
        Some(bad) => Some(MemFault::BadAddr(bad)),
        None => width_refusal(width, value),
    }
}

fn width_refusal(width: u8, value: u64) -> Option<MemFault>
    requires { IsWidth width }
    ensures { result ≡ width_refusal width value }
{
    if fits(width, value) {
        None
    } else {
        Some(MemFault::TooWide)
    }
}

/// Whether the value needs no more than `width` bytes.
fn fits(width: u8, value: u64) -> bool
    requires { IsWidth width }
    ensures { result ≡ nat_lt value (2 ^ (8 * width)) }
{
    match width {
        1 => value < 1 << 8,
        2 => value < 1 << 16,
        4 => value < 1 << 32,
        8 => true,
        _ => unreachable!(),
    }
}

/// Writes the lowest `width` bytes of the value.
fn write<P: Peek>(mem: &mut P, addr: u64, width: u8, value: u64)
    requires width { IsWidth width }
    requires mapped { first_unmapped (P.memory mem.old) addr width ≡ None }
    requires low { addr < 2 ^ 63 }
    ensures written { P.memory mem.new ≡ with_value (P.memory mem.old) addr width value }
    ensures rest { P.rest mem.new ≡ P.rest mem.old }
{
    for i in 0..width {
        let byte = (value >> (8 * u32::from(i))) % 256;
        let _mapped = mem.poke(addr + u64::from(i), byte as u8);
    }
}

/// Appends the line. A refusal leaves `out` as it was.
fn push_modification(out: &mut Vec<u8>, addr: u64, value: u64) -> Result<(), mach_base::OutOfMemory>
    ensures ok { OnOk result (out.new.items ≡ out.old.items ++ modify_text addr value) }
    ensures err { OnErr result (out.new.items ≡ out.old.items) }
{
    let mut line = Vec::new(*out.allocator());
    push_parts(&mut line, addr, value)?;
    push_bytes(out, line.as_slice())?;
    Ok(())
}

#[tactic(auto, unfolding(crate::specs::Changed::modify_text))]
fn push_parts(out: &mut Vec<u8>, addr: u64, value: u64) -> Result<(), mach_base::OutOfMemory>
    ensures { OnOk result (out.new.items ≡ out.old.items ++ modify_text addr value) }
{
    push_address(out, addr)?;
    push_bytes(out, b" = ")?;
    push_address(out, value)?;
    push_newline(out)?;
    Ok(())
}
