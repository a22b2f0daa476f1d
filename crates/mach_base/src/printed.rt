ghost use Rattle.std.specs.Prelude.{◌≡◌, ◌+◌, ◌≤◌, ◌++◌, length, OnOk, OnErr, vec_len, vec_capacity};
ghost use Rattle.mach_base.specs.Texts.{newline, address_text};

use crate::{OutOfMemory, put_hex};

/// Appends bytes. A refusal leaves `out` as it was.
pub fn push_bytes(out: &mut Vec<u8>, bytes: &[u8]) -> Result<(), OutOfMemory>
    ensures ok { OnOk result (out.new.items ≡ out.old.items ++ bytes.now) }
    ensures err { OnErr result (out.new.items ≡ out.old.items) }
{
    out.extend_from_slice(bytes)?;
    Ok(())
}

/// Appends the end of a line, one line feed. A refusal leaves `out` as it was.
pub fn push_newline(out: &mut Vec<u8>) -> Result<(), OutOfMemory>
    ensures ok { OnOk result (out.new.items ≡ out.old.items ++ newline) }
    ensures err { OnErr result (out.new.items ≡ out.old.items) }
{
    push_bytes(out, b"\n")?;
    Ok(())
}

/// Appends bytes into room that is there.
pub fn put_bytes(out: &mut Vec<u8>, bytes: &[u8])
    requires room { vec_len out.old + length bytes.now ≤ vec_capacity out.old }
    ensures text { out.new.items ≡ out.old.items ++ bytes.now }
    ensures capacity { vec_capacity out.new ≡ vec_capacity out.old }
{
    for byte in bytes {
        out.push_reserved(*byte);
    }
}

/// Appends an address as it is printed everywhere: `0x` and 16 lower-case hexadecimal digits. A refusal leaves `out` as
/// it was.
pub fn push_address(out: &mut Vec<u8>, addr: u64) -> Result<(), OutOfMemory>
    ensures ok { OnOk result (out.new.items ≡ out.old.items ++ address_text addr) }
    ensures err { OnErr result (out.new.items ≡ out.old.items) }
{
    out.reserve(18)?;
    put_address(out, addr);
    Ok(())
}

/// Appends an address, `0x` and 16 lower-case hexadecimal digits, into room that is there.
#[tactic(auto, unfolding(crate::specs::Texts::address_text))]
pub fn put_address(out: &mut Vec<u8>, addr: u64)
    requires room { vec_len out.old + 18 ≤ vec_capacity out.old }
    ensures text { out.new.items ≡ out.old.items ++ address_text addr }
    ensures capacity { vec_capacity out.new ≡ vec_capacity out.old }
{
    put_bytes(out, b"0x");
    put_hex(out, addr, 16);
}

#[cfg(test)]
mod tests {
    use super::*;
    use std::test::Fail;

    #[test]
    fn prints_addresses(rt: HostRuntime) -> Result<(), Fail> {
        let mut out = Vec::new(rt.alloc());
        push_address(&mut out, 0x2a0f)?;
        push_newline(&mut out)?;
        assert_eq!(rt; out.as_slice(), b"0x0000000000002a0f\n".as_slice());
        Ok(())
    }
}
