use super::*;
use std::test::Fail;

/// The first sixteen ticks for a number, by another program, and how many ticks each hart has.
#[derive(Clone, Copy)]
struct Known {
    number: u32,
    first: [u8; 16],
    counts: [usize; 4],
}

const KNOWN: [Known; 3] = [
    Known {
        number: 0,
        first: [0, 0, 2, 1, 1, 2, 0, 1, 1, 1, 2, 1, 0, 0, 3, 0],
        counts: [500_283, 500_110, 499_504, 500_103],
    },
    Known {
        number: 1,
        first: [1, 2, 2, 1, 3, 2, 2, 0, 3, 0, 2, 2, 3, 1, 0, 2],
        counts: [500_360, 499_768, 500_326, 499_546],
    },
    Known {
        number: 7,
        first: [1, 3, 3, 1, 1, 0, 1, 1, 3, 2, 1, 2, 0, 2, 0, 0],
        counts: [500_736, 500_205, 499_644, 499_415],
    },
];

/// How many ticks of the plan are of this hart.
fn count(plan: &[u8], hart: u8) -> usize {
    plan.iter().filter(|tick| **tick == hart).count()
}

#[test]
fn draws_the_plan(rt: HostRuntime) -> Result<(), Fail> {
    for known in KNOWN {
        let input = load_input(rt.alloc(), known.number)?;
        assert_eq!(rt; input.plan.len(), 2_000_000);
        assert!(rt; input.plan.as_slice().starts_with(&known.first));
        for hart in 0..4 {
            assert_eq!(rt;
                count(input.plan.as_slice(), hart),
                known.counts[hart as usize]
            );
        }
    }
    Ok(())
}

#[test]
fn has_one_program_and_one_script(rt: HostRuntime) -> Result<(), Fail> {
    let input = load_input(rt.alloc(), 4_294_967_295)?;
    let image = input.image.as_bytes();
    let script = input.script.as_bytes();
    assert_eq!(rt; image.len(), 285);
    assert!(rt; image.starts_with(b"kimg 1\ntext 0x1000 88\nw 0x000025b7 "));
    assert!(rt; image.ends_with(b" 0x00000073\ndata 0x2000 24\n"));
    assert_eq!(rt; script.len(), 180);
    assert!(rt; script.starts_with(b"bp 1018\ngo\ngo\n"));
    assert!(rt; script.ends_with(b"\ngo\ngo\nbc 0\ngo\nmd8c1 2008\ngo\n"));
    Ok(())
}
