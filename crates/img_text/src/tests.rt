use crate::{Image, ImageFault, Why, boot, read_image, write_image};
use mach_base::{Hart, Kind, Peek, Segment, What};
use std::test::Fail;

#[test]
fn names_the_first_faulty_line(rt: HostRuntime) -> Result<(), Fail> {
    // Each text with what its fault prints.
    let cases: [(&[u8], &str); 10] = [
        (b"kimg 01\n", "line 1: Header"),
        (b"kimg 1\ndata 0 8\n# the end", "line 4: NoText"),
        (b"kimg 1\ntext 0x1000\n", "line 2: Word"),
        (b"kimg 1\ntext 0 8\n\nb 0x100 1\n", "line 4: Number"),
        (b"kimg 1\ntext 0x1000 1\n", "line 2: Bounds"),
        (b"kimg 1\ntext 8 8\ndata 8 8\n", "line 3: Order"),
        (b"kimg 1\ntext 0x1000 8\nw 1 2 3\n", "line 3: Overrun"),
        (b"kimg 1\nsp 0x1 0\npc 1 0\nsp 1 0\n", "line 4: Hart"),
        (
            b"kimg 1\ntext 0 8\ndata 0x100000 0x1000008\n",
            "Memory 16777232: too large",
        ),
        (b"kimg 1\r\ntext 0 8", ""),
    ];
    for (text, want) in cases {
        let printed = match read_image(rt.alloc(), text) {
            Ok(_) => String::new(rt.alloc()),
            Err(fault) => format!(in rt.alloc(); "{fault}")?,
        };
        assert_eq!(rt; printed.as_str(), want);
    }
    Ok(())
}

#[test]
fn writes_reads_and_boots_an_image(rt: HostRuntime) -> Result<(), Fail> {
    let mut image = Image::new(rt.alloc());
    image.set_pc(Hart(0), 16);
    image.set_sp(Hart(15), 24);
    let (base, len, kind) = (8, 16, Kind::Text);
    image.add(Segment { base, len, kind }, &[1, 2])?;
    let text = write_image(rt.alloc(), &image)?;
    let again = read_image(rt.alloc(), text.as_slice())?;
    assert_eq!(rt; again.segments(), [Segment { base, len, kind }].as_slice());
    assert_eq!(rt;
        (again.pc(Hart(0)), again.sp(Hart(15)), again.pc(Hart(16))),
        (Some(16), Some(24), None)
    );
    for harts in [1, 16] {
        let booted = boot(rt.alloc(), &again, harts)?;
        assert_eq!(rt;
            (booted.map.peek(9), booted.map.peek(10)),
            (Some(2), Some(0))
        );
        assert_eq!(rt; booted.ctxs.len(), usize::from(harts));
        let first = booted.ctxs.first().ok_or("no hart")?;
        let last = booted.ctxs.last().ok_or("no hart")?;
        assert_eq!(rt; first.pc, 16);
        assert_eq!(rt;
            (last.pc, last.get(2)),
            if harts == 1 { (16, 0) } else { (8, 24) }
        );
    }
    Ok(())
}
