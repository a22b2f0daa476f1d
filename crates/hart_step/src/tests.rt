use super::*;
use hart_ctx::Context;
use mach_base::{Cause, Fault, Hart, Kind, OutOfMemory, Segment};
use mem_map::Map;
use std::alloc::Global;
use std::test::Fail;

const SEGMENTS: [Segment; 3] = [
    Segment {
        base: 0x1000,
        len: 16,
        kind: Kind::Text,
    },
    Segment {
        base: 0x2000,
        len: 16,
        kind: Kind::Data,
    },
    Segment {
        base: 0x3000,
        len: 8,
        kind: Kind::Rodata,
    },
];

/// Text, data that begins with a doubleword, and rodata.
fn memory(alloc: Global) -> Result<Map, OutOfMemory> {
    let mut map = Map::new(alloc, &SEGMENTS)?;
    let _stored = map.store(0x2000, 8, 0x8899_aabb_ccdd_eeff);
    Ok(map)
}

/// A hart at 0x1000 with these values in a0, a1, a2 and a7, and a reservation on the first granule of the data.
fn hart(a0: u64, a1: u64, a2: u64, a7: u64) -> Context {
    let mut ctx = Context::new(0x1000, 0);
    ctx.set(10, a0);
    ctx.set(11, a1);
    ctx.set(12, a2);
    ctx.set(17, a7);
    ctx.reservation = Some(0x400);
    ctx
}

/// What the execution of a word by one of two harts did, and both contexts after it.
fn executed(
    first: Context,
    second: Context,
    map: &mut Map,
    h: u8,
    word: u32,
) -> (Did, Context, Context) {
    let mut ctxs = [first, second];
    let did = exec(&mut ctxs, map, Hart(h % 2), word);
    (did, ctxs[0], ctxs[1])
}

/// What a word does: a register is written and the hart goes on at a pc, or it faults.
type Effect = Result<(u8, u64, u64), (Cause, u64)>;

#[test]
fn each_word_has_its_effect_or_its_fault(rt: HostRuntime) -> Result<(), Fail> {
    // A word with the values of a0, a1, a2 and a7 before it, and its effect, as the specification's text has it.
    let table: [(u32, (u64, u64, u64, u64), Effect); 20] = [
        // lui a0; auipc a0; jal ra; jalr ra, 5(a0); beq a0, a1, taken and not
        (
            0x8000_0537,
            (1, 2, 3, 0),
            Ok((10, 0xffff_ffff_8000_0000, 0x1004)),
        ),
        (0x0000_1517, (1, 2, 3, 0), Ok((10, 0x2000, 0x1004))),
        (0x0080_00ef, (1, 2, 3, 0), Ok((1, 0x1004, 0x1008))),
        (0x0055_00e7, (0x2000, 2, 3, 0), Ok((1, 0x1004, 0x2004))),
        (0x80b5_0063, (7, 7, 3, 0), Ok((0, 0, 0))),
        (0x80b5_0063, (7, 8, 3, 0), Ok((0, 0, 0x1004))),
        // addi a0; sub a0; addi zero; fence
        (0x0050_0513, (1, 2, 3, 0), Ok((10, 5, 0x1004))),
        (0x40c5_8533, (1, 2, 3, 0), Ok((10, u64::MAX, 0x1004))),
        (0x0050_0013, (1, 2, 3, 0), Ok((0, 0, 0x1004))),
        (0x0ff0_000f, (1, 2, 3, 0), Ok((0, 0, 0x1004))),
        // lw a0, 4(a1); ld a0, (a1); amoadd.w a0, a2, (a1); the service that gives the hart's number
        (
            0x0045_a503,
            (1, 0x2000, 3, 0),
            Ok((10, 0xffff_ffff_8899_aabb, 0x1004)),
        ),
        (
            0x0005_b503,
            (1, 0x2000, 3, 0),
            Ok((10, 0x8899_aabb_ccdd_eeff, 0x1004)),
        ),
        (
            0x00c5_a52f,
            (1, 0x2000, 1, 0),
            Ok((10, 0xffff_ffff_ccdd_eeff, 0x1004)),
        ),
        (0x0000_0073, (1, 2, 3, 2), Ok((10, 1, 0x1004))),
        // no instruction; a jump and a branch to 2 modulo 4; loads; a store; an unknown service
        (
            0xffff_ffff,
            (1, 2, 3, 0),
            Err((Cause::Illegal, 0xffff_ffff)),
        ),
        (
            0x0035_00e7,
            (0x2000, 2, 3, 0),
            Err((Cause::Misaligned, 0x2002)),
        ),
        (
            0x0045_a503,
            (1, 0x200c, 3, 0),
            Err((Cause::Unmapped, 0x2010)),
        ),
        (
            0x0005_b503,
            (1, 0x1000, 3, 0),
            Err((Cause::NoRight, 0x1000)),
        ),
        (
            0x00c5_b423,
            (1, 0x2ff8, 3, 0),
            Err((Cause::NoRight, 0x3000)),
        ),
        (0x0000_0073, (1, 2, 3, 8), Err((Cause::BadService, 8))),
    ];
    for (word, (a0, a1, a2, a7), effect) in table {
        let mut map = memory(rt.alloc())?;
        let before = hart(a0, a1, a2, a7);
        let (did, _other, after) = executed(before, before, &mut map, 1, word);
        let mut want = before;
        match effect {
            Ok((rd, value, pc)) => {
                want.set(rd % 32, value);
                want.pc = pc;
                assert_eq!(rt; did, Did::Done(None), "at {word:x}");
                assert_eq!(rt; next(&before, 2, word), After::At(pc));
            }
            Err((cause, addr)) => {
                let fault = Fault { cause, addr };
                assert_eq!(rt; did, Did::Fault(fault), "at {word:x}");
                assert_eq!(rt; fault_of(&before, 2, &map, word), Some(fault));
            }
        }
        assert_eq!(rt; after, want, "at {word:x}");
    }
    Ok(())
}

#[test]
fn a_store_ends_the_reservations_of_other_harts(rt: HostRuntime) -> Result<(), Fail> {
    // sc.d a0, a2, (a1), that of hart 0 and then that of hart 1; sc.d again
    let mut map = memory(rt.alloc())?;
    let mut first = hart(5, 0x2000, 9, 0);
    let mut second = hart(5, 0x2000, 8, 0);
    for (h, a0) in [(0, 0), (1, 1), (0, 1)] {
        let (did, one, two) = executed(first, second, &mut map, h, 0x18c5_b52f);
        first = one;
        second = two;
        let own = if h == 0 { first } else { second };
        assert_eq!(rt; (did, own.get(10)), (Did::Done(None), a0));
    }
    assert_eq!(rt; map.load(0x2000, 8), Ok(9));
    Ok(())
}
