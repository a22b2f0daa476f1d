ghost use Rattle.std.specs.Prelude.{◌≡◌, false, ◌*◌, ◌<◌, ◌≤◌, ◌+◌, ◌^◌, Ok, Err, IfNone, OnOk, MatchOption};
ghost use Rattle.mach_base.specs.Bytes.{IsWidth, byte_or_zero, number_in};
ghost use Rattle.kdb_mem.specs.declared.mem_fault.MemFault.TheVariants.{BadAddr};
ghost use Rattle.kdb_mem.specs.Range.{is_unmapped, first_unmapped};

use crate::MemFault;
use mach_base::Peek;

/// The first unmapped address of `len` bytes from `addr` on; None where all of them are mapped.
#[tactic(auto, using(crate::proofs::Ranges::unmapped_at_once))]
pub fn first_unmapped<P: Peek>(mem: &P, addr: u64, len: u64) -> Option<u64>
    requires { len < 2 ^ 40 }
    ensures value { result ≡ first_unmapped (P.memory mem.now) addr len }
    ensures low { IfNone result (0 < len → addr < 2 ^ 63) }
{
    if len == 0 {
        return None;
    }
    if is_unmapped(mem, addr) {
        return Some(addr);
    }
    (addr..addr + len).find(|at| is_unmapped(mem, *at))
}

/// Refuses `len` bytes from `addr` on by the first of them that is unmapped.
pub fn check_mapped<P: Peek>(mem: &P, addr: u64, len: u64) -> Result<(), MemFault>
    requires { len < 2 ^ 40 }
    ensures refused { MatchOption (first_unmapped (P.memory mem.now) addr len) (result ≡ Ok tt) (λ bad. result ≡ Err (MemFault.BadAddr bad)) }
    ensures low { OnOk result (0 < len → addr < 2 ^ 63) }
{
    match first_unmapped(mem, addr, len) {
        Some(bad) => Err(MemFault::BadAddr(bad)),
        None => Ok(()),
    }
}

fn is_unmapped<P: Peek>(mem: &P, addr: u64) -> bool
    ensures value { result ≡ is_unmapped (P.memory mem.now) addr }
    ensures high { result ≡ false → addr < 2 ^ 63 }
{
    mem.peek(addr).is_none()
}

/// The byte at an address; 0 where nothing is mapped.
pub fn byte<P: Peek>(mem: &P, addr: u64) -> u8
    ensures { result ≡ byte_or_zero (P.memory mem.now) addr }
{
    mem.peek(addr).unwrap_or(0)
}

/// The value of the word of `width` bytes at an address.
pub fn word<P: Peek>(mem: &P, addr: u64, width: u8) -> u64
    requires width { IsWidth width }
    requires room { addr + 8 ≤ 2 ^ 64 }
    ensures value { result ≡ number_in (P.memory mem.now) addr width }
    ensures fits { result < 16 ^ (2 * width) }
{
    match width {
        1 => u64::from(byte(mem, addr)),
        2 => u64::from(word_of_2(mem, addr)),
        4 => u64::from(word_of_4(mem, addr)),
        8 => word_of_8(mem, addr),
        _ => unreachable!(),
    }
}

fn word_of_2<P: Peek>(mem: &P, addr: u64) -> u16
    requires { addr + 2 ≤ 2 ^ 64 }
    ensures { result ≡ number_in (P.memory mem.now) addr 2 }
{
    u16::from_le_bytes([byte(mem, addr), byte(mem, addr + 1)])
}

/// The value of the word of 4 bytes at an address.
pub fn word_of_4<P: Peek>(mem: &P, addr: u64) -> u32
    requires { addr + 4 ≤ 2 ^ 64 }
    ensures { result ≡ number_in (P.memory mem.now) addr 4 }
{
    u32::from_le_bytes([
        byte(mem, addr),
        byte(mem, addr + 1),
        byte(mem, addr + 2),
        byte(mem, addr + 3),
    ])
}

fn word_of_8<P: Peek>(mem: &P, addr: u64) -> u64
    requires { addr + 8 ≤ 2 ^ 64 }
    ensures { result ≡ number_in (P.memory mem.now) addr 8 }
{
    let low = u64::from(word_of_4(mem, addr));
    let high = u64::from(word_of_4(mem, addr + 4));
    low + high * 0x1_0000_0000
}
