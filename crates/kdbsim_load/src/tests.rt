use super::*;
use mach_base::Ending;
use std::test::Fail;

/// What the command prints for a number, without its `load`.
const LINES: [(u32, &[u8]); 5] = [
    (
        0,
        b"load 0: all halted after 88807 steps, 52 sessions, 89479 entries, 0 late\n",
    ),
    (
        1,
        b"load 1: all halted after 87726 steps, 52 sessions, 88398 entries, 0 late\n",
    ),
    (
        7,
        b"load 7: all halted after 88990 steps, 52 sessions, 89662 entries, 0 late\n",
    ),
    (
        42,
        b"load 42: all halted after 89066 steps, 52 sessions, 89738 entries, 0 late\n",
    ),
    (
        4_294_967_295,
        b"load 4294967295: all halted after 88399 steps, 52 sessions, 89071 entries, 0 late\n",
    ),
];

#[test]
fn tells_the_runs(rt: HostRuntime) -> Result<(), Fail> {
    for (number, line) in LINES {
        let told = run_load(rt.alloc(), number)?;
        let mut out = Vec::new(rt.alloc());
        push_load_line(&mut out, number, told)?;
        assert_eq!(rt; out.as_slice(), line);
    }
    Ok(())
}

#[test]
fn tells_each_ending(rt: HostRuntime) -> Result<(), Fail> {
    for (ending, line) in [
        (
            Ending::ScriptEnd,
            b"load 5: script end after 1 steps, 2 sessions, 3 entries, 4 late\n".as_slice(),
        ),
        (
            Ending::StepLimit,
            b"load 5: step limit after 1 steps, 2 sessions, 3 entries, 4 late\n",
        ),
        (
            Ending::PlanEnd,
            b"load 5: plan end after 1 steps, 2 sessions, 3 entries, 4 late\n",
        ),
    ] {
        let told = LoadTold {
            ending,
            steps: 1,
            sessions: 2,
            entries: 3,
            late: 4,
        };
        let mut out = Vec::new(rt.alloc());
        push_load_line(&mut out, 5, told)?;
        assert_eq!(rt; out.as_slice(), line);
    }
    Ok(())
}
