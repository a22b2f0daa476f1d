use super::*;
use std::alloc::{AllocError, Global};
use std::test::Fail;
use sym_map::Symbols;
use test_memory::ByteList;

/// Two words of eight bytes, and eight bytes round the ends of the printable ones.
fn sample(alloc: Global) -> Result<ByteList, AllocError> {
    let bytes = [
        0x88, 0x77, 0x66, 0x55, 0x44, 0x33, 0x22, 0x11, 0x41, 0, 0, 0, 0, 0, 0, 0, 0x20, 0x7e,
        0x7f, 0x1f, 0x80, 0xff, 0x41, 0x7a,
    ];
    Ok(ByteList::new(bytes.to_vec(alloc)?))
}

#[test]
fn shows_words_bytes_and_symbols(rt: HostRuntime) -> Result<(), Fail> {
    let mem = sample(rt.alloc())?;
    for (addr, width, count, text) in [
        (8, 1, 2, b"0x0000000000000008 41 00  A.\n".as_slice()),
        (6, 4, 1, b"0x0000000000000006 00411122  \".A.\n".as_slice()),
        (
            0,
            8,
            3,
            b"0x0000000000000000 1122334455667788 0000000000000041  .wfUD3\".A.......\n0x0000000000000010 7a41ff801f7f7e20   ~....Az\n".as_slice(),
        ),
        (24, 1, 0, b"".as_slice()),
    ] {
        let mut out = Vec::new(rt.alloc());
        assert_eq!(rt; show(&mem, &mut out, addr, width, count), Ok(()));
        assert_eq!(rt; out.as_slice(), text);
    }
    let mut out = Vec::new(rt.alloc());
    assert_eq!(rt; show(&mem, &mut out, 16, 8, 2), Err(MemFault::BadAddr(24)));
    assert_eq!(rt; raw(&mem, &mut out, 0, 2), Ok(()));
    let names = Symbols::read(rt.alloc(), b"0000000000000041 T start\n")?;
    assert_eq!(rt; syms(&mem, &names, &mut out, 8, 1), Ok(()));
    assert_eq!(rt;
        out.as_slice(),
        b"8877\n0x0000000000000008 0000000000000041 (start)\n".as_slice()
    );
    Ok(())
}

#[test]
fn shows_instructions(rt: HostRuntime) -> Result<(), Fail> {
    let mem = ByteList::new([0x13, 0x05, 0x50, 0, 0x73, 0, 0x10, 0, 0x73, 0, 0, 0].to_vec(
        rt.alloc(),
    )?);
    let mut out = Vec::new(rt.alloc());
    assert_eq!(rt; insns(&mem, &mut out, 2, 1), Err(MemFault::BadAddr(2)));
    assert_eq!(rt; insns(&mem, &mut out, 8, 2), Err(MemFault::BadAddr(12)));
    assert_eq!(rt; insns(&mem, &mut out, 0, 3), Ok(()));
    assert_eq!(rt;
        out.as_slice(),
        b"0x0000000000000000 addi a0, zero, 5\n0x0000000000000004 ebreak\n0x0000000000000008 ecall\n".as_slice()
    );
    Ok(())
}

#[test]
fn writes_little_endian(rt: HostRuntime) -> Result<(), Fail> {
    let mut mem = sample(rt.alloc())?;
    let mut out = Vec::new(rt.alloc());
    for (addr, width, value, answer) in [
        (8, 2, 0x1_0000, Err(MemFault::TooWide)),
        (20, 8, 1, Err(MemFault::BadAddr(24))),
        (8, 2, 0x1234, Ok(())),
    ] {
        assert_eq!(rt; modify(&mut mem, &mut out, addr, width, value), answer);
    }
    assert_eq!(rt; raw(&mem, &mut out, 7, 4), Ok(()));
    assert_eq!(rt;
        out.as_slice(),
        b"0x0000000000000008 = 0x0000000000001234\n11341200\n".as_slice()
    );
    Ok(())
}
