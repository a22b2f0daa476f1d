//! Texts that name the symbol which an address is near.

ghost use Rattle.std.specs.Prelude.{◌≡◌, ◌+◌, ◌^◌, ◌<◌, ◌≤◌, ◌++◌, Some, OnOk, OnErr, length, vec_len, vec_capacity};
ghost use Rattle.mach_base.specs.declared.limits.TheConstants.{SYMBOL_BYTES};
ghost use Rattle.sym_map.specs.Texts.{digit_count, offset_text, near_text, name_text, place_text};

use crate::Symbols;
use mach_base::{OutOfMemory, SYMBOL_BYTES, put_address, put_bytes, put_hex};

/// The most bytes of the symbol that an address is near, as it is printed: a name and an offset of 5 digits in ` (+0x)`.
const NAME_ROOM: usize = SYMBOL_BYTES + 11;

/// The most bytes of a place: an address of 18 bytes and such a symbol.
const PLACE_ROOM: usize = SYMBOL_BYTES + 29;

/// Appends an address with the symbol that it is near, as in `0x0000000000001004 (start+0x4)`. A refusal leaves `out` as
/// it was.
pub fn push_place(out: &mut Vec<u8>, names: &Symbols, addr: u64) -> Result<(), OutOfMemory>
    ensures ok { OnOk result (out.new.items ≡ out.old.items ++ place_text names.now addr) }
    ensures err { OnErr result (out.new.items ≡ out.old.items) }
{
    out.reserve(PLACE_ROOM)?;
    put_address(out, addr);
    put_name(out, names, addr);
    Ok(())
}

/// Appends the symbol that an address is near, after a blank and in round brackets, with the offset unless it is 0;
/// nothing where there is none. A refusal leaves `out` as it was.
pub fn push_name(out: &mut Vec<u8>, names: &Symbols, addr: u64) -> Result<(), OutOfMemory>
    ensures ok { OnOk result (out.new.items ≡ out.old.items ++ name_text names.now addr) }
    ensures err { OnErr result (out.new.items ≡ out.old.items) }
{
    out.reserve(NAME_ROOM)?;
    put_name(out, names, addr);
    Ok(())
}

/// Appends the same into room that is there.
#[tactic(auto, unfolding(crate::specs::Texts::near_text))]
fn put_name(out: &mut Vec<u8>, names: &Symbols, addr: u64)
    requires room { vec_len out.old + SYMBOL_BYTES + 11 ≤ vec_capacity out.old }
    ensures { out.new.items ≡ out.old.items ++ name_text names.now addr }
{
    let Some(near) = names.near(addr) else {
        return;
    };
    put_near(out, near.name, near.offset);
}

#[tactic(auto, unfolding(crate::specs::Texts::near_text))]
fn put_near(out: &mut Vec<u8>, name: &[u8], offset: u64)
    requires offset { offset < 1048576 }
    requires room { vec_len out.old + length name.now + 11 ≤ vec_capacity out.old }
    ensures { out.new.items ≡ out.old.items ++ near_text (Some (name.now, offset)) }
{
    put_bytes(out, b" (");
    put_bytes(out, name);
    put_offset(out, offset);
    put_bytes(out, b")");
}

#[tactic(auto, unfolding(crate::specs::Texts::offset_text))]
fn put_offset(out: &mut Vec<u8>, offset: u64)
    requires offset { offset < 1048576 }
    requires room { vec_len out.old + 8 ≤ vec_capacity out.old }
    ensures text { out.new.items ≡ out.old.items ++ offset_text offset }
    ensures capacity { vec_capacity out.new ≡ vec_capacity out.old }
    ensures len { vec_len out.new ≤ vec_len out.old + 8 }
{
    if offset == 0 {
        return;
    }
    put_bytes(out, b"+0x");
    put_hex(out, offset, digit_count(offset));
}

/// How many hexadecimal digits an offset has.
#[tactic(auto, using(crate::proofs::Digits::digit_counts))]
fn digit_count(offset: u64) -> u8
    requires some { 0 < offset }
    requires most { offset < 1048576 }
    ensures value { result ≡ digit_count offset }
    ensures least { 1 ≤ result }
    ensures fits { offset < 16 ^ result }
    ensures few { result ≤ 5 }
{
    if offset < 0x10 {
        return 1;
    }
    if offset < 0x100 {
        return 2;
    }
    if offset < 0x1000 {
        return 3;
    }
    if offset < 0x1_0000 {
        return 4;
    }
    5
}
