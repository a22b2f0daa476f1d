use super::*;
use hart_ctx::Context;
use mach_base::Peek;
use std::alloc::{AllocError, Global};
use std::test::Fail;
use sym_map::Symbols;
use test_memory::ByteList;

/// Two frames, each of a caller's frame pointer below 256 and a return address 0x1000 + so much.
fn two_frames(alloc: Global, frames: [(u8, u8); 2]) -> Result<ByteList, AllocError> {
    let [(caller, back), (last, last_back)] = frames;
    let mut mem = ByteList::new([0; 32].to_vec(alloc)?);
    for (at, byte) in [
        (0, caller),
        (8, back),
        (9, if back == 0 { 0 } else { 0x10 }),
        (16, last),
        (24, last_back),
        (25, if last_back == 0 { 0 } else { 0x10 }),
    ] {
        let _mapped = mem.poke(at, byte);
    }
    Ok(mem)
}

const ONE: &[u8] = b"#0 0x0000000000001000 (start)\n";

const TWO: &[u8] = b"#0 0x0000000000001000 (start)\n#1 0x0000000000001004 (start+0x4)\n";

const THREE: &[u8] =
    b"#0 0x0000000000001000 (start)\n#1 0x0000000000001004 (start+0x4)\n#2 0x0000000000001008 (start+0x8)\n";

#[test]
fn follows_the_frame_pointers(rt: HostRuntime) -> Result<(), Fail> {
    let names = Symbols::read(rt.alloc(), b"0000000000001000 T start\n")?;
    // The frame pointer, the frames from address 0 on, and the lines.
    for (pointer, frames, want) in [
        (16, [(32, 4), (16, 8)], THREE),
        (16, [(16, 4), (16, 8)], TWO),
        (16, [(32, 4), (16, 0)], TWO),
        (16, [(36, 4), (16, 8)], TWO),
        (16, [(32, 0), (16, 8)], ONE),
        (8, [(32, 4), (16, 8)], ONE),
        (17, [(32, 4), (16, 8)], ONE),
        (40, [(32, 4), (16, 8)], ONE),
    ] {
        let mut ctx = Context::new(0x1000, 0);
        ctx.set(8, pointer);
        let mem = two_frames(rt.alloc(), frames)?;
        let mut out = Vec::new(rt.alloc());
        show_frames(&mem, &names, &ctx, &mut out)?;
        assert_eq!(rt; out.as_slice(), want);
    }
    Ok(())
}
