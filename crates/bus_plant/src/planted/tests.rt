use super::*;
use mach_base::{Cause, Kind, OutOfMemory, Segment, Text};
use rv_table::EBREAK;
use std::alloc::Global;
use std::test::Fail;

const SEGMENTS: [Segment; 2] = [
    Segment {
        base: 0x1000,
        len: 16,
        kind: Kind::Text,
    },
    Segment {
        base: 0x2000,
        len: 8,
        kind: Kind::Data,
    },
];

/// Text with `addi a0, zero, 1` at 0x1000 and `sd a0, 0(a1)` at 0x1004, and data.
fn sample(alloc: Global) -> Result<Planted, OutOfMemory> {
    let mut text = vec![in alloc; 0x13, 0x05, 0x10, 0x00, 0x23, 0xb0, 0xa5, 0x00]?;
    text.extend_from_slice(&[0; 8])?;
    let data = vec![in alloc; 0; 8]?;
    let contents = [Text::from_vec(text), Text::from_vec(data)];
    Ok(Planted::new(Map::filled(alloc, &SEGMENTS, &contents)?))
}

#[test]
fn plants_and_pulls(rt: HostRuntime) -> Result<(), Fail> {
    let mut memory = sample(rt.alloc())?;
    let (place, step) = (memory.planted_at(3), memory.step_word());
    assert!(rt; place.is_none() && step.is_none());
    assert!(rt; memory.is_text(0x1000) && !memory.is_planted(0x1000));
    memory.plant(3, 0x1000);
    assert!(rt; memory.is_text(0x1004) && !memory.is_planted(0x1004));
    memory.plant_step(0x1004);
    memory.keeps_words();
    assert_eq!(rt;
        (memory.planted(), memory.planted_at(3), memory.planted_at(4)),
        (8, Some(0x1000), None)
    );
    assert_eq!(rt; memory.step_word(), Some(0x1004));
    // An address, the word there in raw memory, and the true word.
    for (addr, raw, word) in [
        (0x1000, Ok(EBREAK), Ok(0x0010_0513)),
        (0x1004, Ok(EBREAK), Ok(0x00a5_b023)),
        (0x1008, Ok(0), Ok(0)),
        (0x2000, Err(Cause::NoRight), Err(Cause::NoRight)),
    ] {
        assert_eq!(rt; memory.raw().fetch(addr).map_err(|fault| fault.cause), raw);
        assert_eq!(rt; memory.fetch(addr).map_err(|fault| fault.cause), word);
    }
    assert_eq!(rt;
        (memory.peek(0x1005), memory.raw().peek(0x1005)),
        (Some(0xb0), Some(0))
    );
    assert!(rt; memory.poke(0x1005, 0xb1) && memory.is_text(0x1004) && !memory.poke(0x3000, 0));
    let mut before = Context::new(0x1004, 0);
    before.set(10, 7);
    before.set(11, 0x2000);
    let mut ctxs = [before];
    let did = memory.exec(&mut ctxs, Hart(0), 0x00a5_b023);
    let after = ctxs[0];
    assert_eq!(rt;
        (did, memory.peek(0x2000), after.pc),
        (Did::Done(None), Some(7), 0x1008)
    );
    memory.pull(3);
    memory.pull_step();
    assert_eq!(rt; (memory.planted(), memory.step_word()), (0, None));
    assert_eq!(rt; memory.raw().fetch(0x1000), Ok(0x0010_0513));
    assert_eq!(rt; memory.raw().fetch(0x1004), Ok(0x00a5_b123));
    Ok(())
}

/// The marks of the two pages.
fn marks(memory: &Planted) -> (Option<bool>, Option<bool>) {
    let raw = memory.raw();
    (
        raw.page(0).map(|page| page.changed),
        raw.page(1).map(|page| page.changed),
    )
}

#[test]
fn writes_and_marks_pages(rt: HostRuntime) -> Result<(), Fail> {
    let mut memory = Planted::new(Map::new(rt.alloc(), &SEGMENTS)?);
    memory.put_page(1, &[1, 2, 3, 4, 5, 6, 7, 8]);
    assert_eq!(rt; memory.peek(0x2007), Some(8));
    assert_eq!(rt; marks(&memory), (Some(false), Some(true)));
    memory.settle();
    assert!(rt; memory.is_text(0x1008) && !memory.is_planted(0x1008));
    assert!(rt; memory.planted_at(0).is_none());
    memory.plant(0, 0x1008);
    assert_eq!(rt; marks(&memory), (Some(true), Some(false)));
    Ok(())
}
