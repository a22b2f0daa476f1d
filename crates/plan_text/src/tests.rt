use super::*;
use mach_base::Hart;
use std::test::Fail;

/// Of three harts: two runs, between them what is skipped.
const TWO_RUNS: &[u8] = b" kplan\t1\r\n\n0 2  x3\r\n# 7\n  \n1\n";

const THEIR_TICKS: [u8; 7] = [0, 2, 0, 2, 0, 2, 1];

/// Whether the ticks of the plan are those of these harts.
fn has_ticks(plan: &Plan, harts: &[u8]) -> bool {
    let mut ticks = plan.ticks();
    for hart in harts {
        if ticks.next_tick() != Some(Hart(*hart)) {
            return false;
        }
    }
    ticks.next_tick().is_none()
}

#[test]
fn goes_through_the_ticks(rt: HostRuntime) -> Result<(), Fail> {
    let plan = read_plan(rt.alloc(), TWO_RUNS, 3)?;
    assert_eq!(rt; plan.count(), 7);
    assert!(rt; has_ticks(&plan, &THEIR_TICKS));
    Ok(())
}

/// Each text with what its fault prints for two harts, nothing for none.
const TEXTS: [(&[u8], &str); 20] = [
    (b"", "line 1: no ticks"),
    (b"# a plan\nkplan 1\n", "line 1: no ticks"),
    (b"\nkplan 1\n", "line 1: no ticks"),
    (b"kplan 01\n", "line 1: no ticks"),
    (b"kplan 1 0\n", "line 1: no ticks"),
    (b"kplan 1", ""),
    (b"kplan 1\n2\n", "line 2: no ticks"),
    (b"kplan 1\n0x1 01 x0x2\n", ""),
    (b"kplan 1\n0\n\n0 1,1\n2\n", "line 4: no ticks"),
    (b"kplan 1\nx5\n", "line 2: no ticks"),
    (b"kplan 1\n0 x\n", "line 2: no ticks"),
    (b"kplan 1\n0 X5\n", "line 2: no ticks"),
    (b"kplan 1\n0 x0\n", "line 2: no ticks"),
    (b"kplan 1\n0 x5 1\n", "line 2: no ticks"),
    (b"kplan 1\n0 x5 x5\n", "line 2: no ticks"),
    (b"kplan 1\n0 # one\n", "line 2: no ticks"),
    (b"kplan 1\n0 x4000000\n", ""),
    (b"kplan 1\n0 x4000001\n", "line 2: no ticks"),
    (b"kplan 1\n0 1 x4000000\n1\n", "Ticks 8000001: too large"),
    (b"kplan 1\n0 1 x4000000\n2\n", "line 3: no ticks"),
];

#[test]
fn names_the_first_bad_line(rt: HostRuntime) -> Result<(), Fail> {
    for (text, want) in TEXTS {
        let printed = match read_plan(rt.alloc(), text, 2) {
            Ok(_) => String::new(rt.alloc()),
            Err(fault) => format!(in rt.alloc(); "{fault}")?,
        };
        assert_eq!(rt; printed.as_str(), want);
    }
    Ok(())
}

/// A plan of one line with the most ticks that there may be; they take no memory.
#[test]
fn goes_through_four_million_ticks(rt: HostRuntime) -> Result<(), Fail> {
    let plan = read_plan(rt.alloc(), b"kplan 1\n0 1 x2000000\n", 2)?;
    assert_eq!(rt; plan.count(), 4_000_000);
    let mut ticks = plan.ticks();
    for _ in 0..2_000_000 {
        assert_eq!(rt; ticks.next_tick(), Some(Hart(0)));
        assert_eq!(rt; ticks.next_tick(), Some(Hart(1)));
    }
    assert_eq!(rt; ticks.next_tick(), None);
    Ok(())
}
