use super::*;
use mach_base::{What, push_bytes, push_dec, push_hex, push_newline};
use std::test::Fail;

const TWO: &[u8] = b"0000000000001000 T start\n0000000000002000 D face\n2000 D other\n1 D start\n";

#[test]
fn finds_and_prints_the_first_symbol(rt: HostRuntime) -> Result<(), Fail> {
    let names = Symbols::read(rt.alloc(), TWO)?;
    assert_eq!(rt; names.addr_of(b"start"), Some(0x1000));
    assert_eq!(rt; names.addr_of(b"fac"), None);
    let table: [(u64, Option<(&[u8], u64)>, &[u8]); 5] = [
        (0, None, b"0x0000000000000000"),
        (0x1000, Some((b"start", 0)), b"0x0000000000001000 (start)"),
        (
            0x1abc,
            Some((b"start", 0xabc)),
            b"0x0000000000001abc (start+0xabc)",
        ),
        (
            0x10_1fff,
            Some((b"face", 0xf_ffff)),
            b"0x0000000000101fff (face+0xfffff)",
        ),
        (0x10_2000, None, b"0x0000000000102000"),
    ];
    for (addr, near, place) in table {
        let found = names.near(addr).map(|near| (near.name, near.offset));
        assert_eq!(rt; found, near);
        let mut out = Vec::new(rt.alloc());
        push_place(&mut out, &names, addr)?;
        assert_eq!(rt; out.as_slice(), place);
    }
    Ok(())
}

#[test]
fn names_the_first_bad_line(rt: HostRuntime) -> Result<(), Fail> {
    // Each text with what its fault prints, nothing for none.
    let table: [(&[u8], &str); 7] = [
        (b"\n \t\r\n#1 2 3\n  # x", ""),
        (b"U printk\nw x\n0 T a\r\nfFfFfFfFfFfFfFfF\tT b mod\r\n", ""),
        (b"1 T a\n\nu printk\n", "line 3: no symbol"),
        (b"1 T", "line 1: no symbol"),
        (b"0x1 T x", "line 1: no symbol"),
        (b"1 TT x", "line 1: no symbol"),
        (b"1 T x y z", "line 1: no symbol"),
    ];
    for (text, want) in table {
        let printed = match Symbols::read(rt.alloc(), text) {
            Ok(_) => String::new(rt.alloc()),
            Err(fault) => format!(in rt.alloc(); "{fault}")?,
        };
        assert_eq!(rt; printed.as_str(), want);
    }
    let (what, size) = (What::Symbols, 500_001);
    let printed = format!(in rt.alloc(); "{}", MapFault::TooLarge { what, size })?;
    assert_eq!(rt; printed.as_str(), "Symbols 500001: too large");
    Ok(())
}

/// A walk over all symbols at each look-up would not end in time.
#[test]
fn finds_each_of_half_a_million_symbols(rt: HostRuntime) -> Result<(), Fail> {
    let mut text = Vec::new(rt.alloc());
    for i in 0..500_000_u64 {
        push_hex(&mut text, 16 * i, 16)?;
        push_bytes(&mut text, b" t n")?;
        push_dec(&mut text, i)?;
        push_newline(&mut text)?;
    }
    let names = Symbols::read(rt.alloc(), text.as_slice())?;
    let mut name = Vec::new(rt.alloc());
    for i in 0..500_000_u64 {
        name.clear();
        push_bytes(&mut name, b"n")?;
        push_dec(&mut name, i)?;
        assert_eq!(rt; names.addr_of(name.as_slice()), Some(16 * i));
        let near = names.near(16 * i + 15).map(|near| near.name);
        assert_eq!(rt; near, Some(name.as_slice()));
    }
    Ok(())
}
