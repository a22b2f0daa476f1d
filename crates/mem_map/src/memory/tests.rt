use super::*;
use mach_base::Kind;
use std::test::Fail;

const SEGMENTS: [Segment; 3] = [
    Segment {
        base: 0x1000,
        len: 8,
        kind: Kind::Text,
    },
    Segment {
        base: 0x1008,
        len: 8,
        kind: Kind::Data,
    },
    Segment {
        base: 0x2000,
        len: 8,
        kind: Kind::Rodata,
    },
];

/// Text 0x1000 to 0x1007, data that touches it to 0x100f, and rodata 0x2000 to 0x2007.
fn sample(alloc: Global) -> Result<Map, OutOfMemory> {
    let text = vec![in alloc; 0x13, 0x05, 0x10, 0x00, 0x73, 0x00, 0x00, 0x00]?;
    let data = vec![in alloc; 0xf1, 0xf2, 0xf3, 0xf4, 0xf5, 0xf6, 0xf7, 0xf8]?;
    let rodata = vec![in alloc; 0x11, 0x22, 0x33, 0x44, 0x55, 0x66, 0x77, 0x88]?;
    let contents = [
        Text::from_vec(text),
        Text::from_vec(data),
        Text::from_vec(rodata),
    ];
    Map::filled(alloc, &SEGMENTS, &contents)
}

/// The value, or the cause of the fault.
fn value<T: Drop>(answer: Result<T, Fault>) -> Result<T, Cause> {
    match answer {
        Ok(value) => Ok(value),
        Err(fault) => Err(fault.cause),
    }
}

#[test]
fn reads_by_rights(rt: HostRuntime) -> Result<(), Fail> {
    let map = sample(rt.alloc())?;
    // An address, the word that is fetched there, and the byte, half, word and doubleword that are loaded.
    let cases = [
        (
            0x1004,
            Ok(0x73),
            Err(Cause::NoRight),
            Err(Cause::Misaligned),
        ),
        (
            0x1006,
            Err(Cause::Misaligned),
            Err(Cause::NoRight),
            Err(Cause::Misaligned),
        ),
        (
            0x1008,
            Err(Cause::NoRight),
            Ok(0xf1),
            Ok(0xf8f7_f6f5_f4f3_f2f1),
        ),
        (
            0x100c,
            Err(Cause::NoRight),
            Ok(0xf5),
            Err(Cause::Misaligned),
        ),
        (
            0x1010,
            Err(Cause::Unmapped),
            Err(Cause::Unmapped),
            Err(Cause::Unmapped),
        ),
        (
            0x2000,
            Err(Cause::NoRight),
            Ok(0x11),
            Ok(0x8877_6655_4433_2211),
        ),
    ];
    for (addr, word, byte, double) in cases {
        assert_eq!(rt; value(map.fetch(addr)), word, "at {addr:#x}");
        assert_eq!(rt; map.is_text(addr), word == Ok(0x73), "at {addr:#x}");
        assert_eq!(rt; value(map.load(addr, 1)), byte, "at {addr:#x}");
        assert_eq!(rt; value(map.load(addr, 8)), double, "at {addr:#x}");
    }
    Ok(())
}

#[test]
fn writes_by_rights(rt: HostRuntime) -> Result<(), Fail> {
    let mut map = sample(rt.alloc())?;
    let cases = [
        (0x100a, Ok(())),
        (0x1009, Err(Cause::Misaligned)),
        (0x1000, Err(Cause::NoRight)),
        (0x2000, Err(Cause::NoRight)),
        (0x3000, Err(Cause::Unmapped)),
    ];
    for (addr, want) in cases {
        assert_eq!(rt; value(map.storable(addr, 2)), want, "at {addr:#x}");
        assert_eq!(rt;
            value(map.store(addr, 2, 0x5544_3322)),
            want,
            "at {addr:#x}"
        );
    }
    assert_eq!(rt; value(map.load(0x1008, 8)), Ok(0xf8f7_f6f5_3322_f2f1));
    assert_eq!(rt;
        (map.poke(0x1001, 0x5a), map.poke(0x1010, 0x5a)),
        (true, false)
    );
    assert_eq!(rt; (map.peek(0x1001), map.peek(0x1010)), (Some(0x5a), None));
    Ok(())
}

/// A page's base, its size and its mark.
fn shape(map: &Map, number: usize) -> Option<(u64, usize, bool)> {
    map.page(number)
        .map(|page| (page.base, page.bytes.len(), page.changed))
}

#[test]
fn cuts_pages_from_each_base(rt: HostRuntime) -> Result<(), Fail> {
    let segments = [
        Segment {
            base: 0x1000,
            len: 8200,
            kind: Kind::Data,
        },
        Segment {
            base: 0x4000,
            len: 8,
            kind: Kind::Text,
        },
    ];
    let mut map = Map::new(rt.alloc(), &segments)?;
    map.put_page(2, &[1, 2, 3, 4, 5, 6, 7, 8]);
    assert_eq!(rt; map.load(0x3000, 8), Ok(0x0807_0605_0403_0201));
    assert_eq!(rt; map.page_count(), 4);
    assert_eq!(rt; shape(&map, 2), Some((0x3000, 8, true)));
    map.settle();
    assert_eq!(rt; map.store(0x2ff8, 8, 7), Ok(()));
    assert!(rt; map.poke(0x4007, 9) && !map.poke(0x3008, 9));
    for (number, page) in [
        (0, Some((0x1000, 4096, false))),
        (1, Some((0x2000, 4096, true))),
        (2, Some((0x3000, 8, false))),
        (3, Some((0x4000, 8, true))),
        (4, None),
    ] {
        assert_eq!(rt; shape(&map, number), page, "page {number}");
    }
    Ok(())
}
