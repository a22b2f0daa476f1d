ghost use Rattle.std.specs.Prelude.{◌≡◌, ◌+◌, ◌*◌, ◌<◌, ◌≤◌, ◌^◌, ◌++◌, Err, OnOk, OnErr, IsOkUnless, MatchOption};
ghost use Rattle.kdb_mem.specs.declared.mem_fault.MemFault.TheVariants.{BadAddr, OutOfMemory};
ghost use Rattle.kdb_mem.specs.Range.{first_unmapped};
ghost use Rattle.kdb_mem.specs.Shown.{symbol_line, syms_text};

use crate::MemFault;
use crate::lines::{Pushed, push_word};
use crate::range::{check_mapped, word};
use mach_base::{Peek, push_address, push_bytes, push_newline};
use sym_map::{Symbols, push_name};

/// Appends `count` lines of one word of 8 bytes each, from `addr` on, with the symbol that its value is near. BadAddr
/// comes exactly where not all of the words are mapped. A refusal leaves `out` as it was.
pub fn syms<P: Peek>(
    mem: &P,
    names: &Symbols,
    out: &mut Vec<u8>,
    addr: u64,
    count: u32,
) -> Result<(), MemFault>
    ensures refused { MatchOption (first_unmapped (P.memory mem.now) addr (count * 8)) (IsOkUnless result MemFault.OutOfMemory) (λ bad. result ≡ Err (MemFault.BadAddr bad)) }
    ensures ok { OnOk result (out.new.items ≡ out.old.items ++ syms_text (P.memory mem.now) names.now addr count) }
    ensures err { OnErr result (out.new.items ≡ out.old.items) }
{
    check_mapped(mem, addr, u64::from(count) * 8)?;
    let mut text = Vec::new(*out.allocator());
    push_symbol_lines(mem, names, &mut text, addr, count)?;
    push_bytes(out, text.as_slice())?;
    Ok(())
}

fn push_symbol_lines<P: Peek>(
    mem: &P,
    names: &Symbols,
    out: &mut Vec<u8>,
    addr: u64,
    count: u32,
) -> Pushed
    requires { 0 < count → addr < 2 ^ 63 }
    ensures { OnOk result (out.new.items ≡ out.old.items ++ syms_text (P.memory mem.now) names.now addr count) }
{
    for line in 0..count {
        push_symbol_line(mem, names, out, addr + 8 * u64::from(line))?;
    }
    Ok(())
}

#[tactic(auto, unfolding(crate::specs::Shown::symbol_line))]
fn push_symbol_line<P: Peek>(mem: &P, names: &Symbols, out: &mut Vec<u8>, addr: u64) -> Pushed
    requires { addr + 8 ≤ 2 ^ 64 }
    ensures { OnOk result (out.new.items ≡ out.old.items ++ symbol_line (P.memory mem.now) names.now addr) }
{
    push_address(out, addr)?;
    push_word(mem, out, addr, 8)?;
    push_name(out, names, word(mem, addr, 8))?;
    push_newline(out)?;
    Ok(())
}
