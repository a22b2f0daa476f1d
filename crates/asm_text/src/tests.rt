use crate::read_source;
use img_text::boot;
use mach_base::{Hart, Kind, Peek, Segment};
use std::test::Fail;

/// Each text with what its fault prints, nothing for none.
const TEXTS: [(&[u8], &str); 16] = [
    (b"kasm 1\ntext 0x1000 8\nhere:\njal zero, here\n", ""),
    (
        b"kasm 1\ntext 0x1000 8\nhere:\naddi a0, zero, 4096\n",
        "line 4: no source",
    ),
    (b"kimg 1\ntext 0x1000 8\n", "line 1: no source"),
    (b"kasm 1\necall\ntext 0x1000 8\n", "line 2: no source"),
    (b"kasm 1\nhere:\ntext 0x1000 8\n", "line 2: no source"),
    (
        b"kasm 1\ntext 0x1000 8\nhere:\nhere:\n",
        "line 4: no source",
    ),
    (
        b"kasm 1\ntext 0x1000 8\njal zero, there\n",
        "line 3: no source",
    ),
    (
        b"kasm 1\ntext 0x1000 8\nbeq zero, zero, far\ntext 0x2000 8\nfar:\n",
        "line 3: no source",
    ),
    (
        b"kasm 1\ntext 0x1000 8\nbeq zero, zero, far\ntext 0x1ff8 8\nfar:\n",
        "",
    ),
    (
        b"kasm 1\ntext 0x1000 8\naddi a0, zero, here\nhere:\n",
        "line 3: no source",
    ),
    (
        b"kasm 1\ntext 0x1000 8\naddi a0, q0, 1\n",
        "line 3: no source",
    ),
    (b"kasm 1\ntext 0x1000 8\n1a:\n", "line 3: no source"),
    (
        b"kasm 1\ntext 0x1000 8\necall\necall\necall\n",
        "line 5: no source",
    ),
    (b"kasm 1\ndata 0x1000 8\n", "line 3: no source"),
    (
        b"kasm 1\ntext 0 8\ndata 0x100000 0x1000008\n",
        "Memory 16777232: too large",
    ),
    (
        b"kasm 1\r\ntext 0x1000 8\r\n\r\n # a comment\r\n \tecall\r\n",
        "",
    ),
];

#[test]
fn names_the_first_bad_line(rt: HostRuntime) -> Result<(), Fail> {
    for (text, want) in TEXTS {
        let printed = match read_source(rt.alloc(), text) {
            Ok(_) => String::new(rt.alloc()),
            Err(fault) => format!(in rt.alloc(); "{fault}")?,
        };
        assert_eq!(rt; printed.as_str(), want);
    }
    Ok(())
}

/// A jump to itself; a loop, whose branch goes forward to the end and whose jump goes back to the start.
const PROGRAMS: [(&[u8], &[u32]); 2] = [
    (
        b"kasm 1\ntext 0x1000 8\nhere:\njal zero, here",
        &[0x0000_006f],
    ),
    (
        b"kasm 1\ntext 0x1000 24\nloop:\naddi a0, a0, -1\nbeq a0, zero, end\njal zero, loop\nend:\necall\njal ra, end\n.word 0xffffffff\nsp 0 0x2000\n",
        &[
            0xfff5_0513,
            0x0005_0463,
            0xff9f_f06f,
            0x0000_0073,
            0xffdf_f0ef,
            0xffff_ffff,
        ],
    ),
];

#[test]
fn puts_the_words(rt: HostRuntime) -> Result<(), Fail> {
    for (text, words) in PROGRAMS {
        let image = read_source(rt.alloc(), text)?;
        let booted = boot(rt.alloc(), &image, 1)?;
        let mut at = 0x1000;
        for word in words {
            for byte in word.to_le_bytes() {
                assert_eq!(rt; booted.map.peek(at), Some(byte));
                at += 1;
            }
        }
    }
    Ok(())
}

#[test]
fn keeps_the_lines_of_an_image(rt: HostRuntime) -> Result<(), Fail> {
    let image = read_source(rt.alloc(), PROGRAMS[1].0)?;
    let (base, len, kind) = (0x1000, 24, Kind::Text);
    assert_eq!(rt; image.segments(), [Segment { base, len, kind }].as_slice());
    assert_eq!(rt; image.sp(Hart(0)), Some(0x2000));
    Ok(())
}
