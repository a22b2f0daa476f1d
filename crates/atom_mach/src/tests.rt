ghost use Rattle.std.specs.Prelude.{◌≤◌};
ghost use Rattle.mach_base.specs.declared.limits.TheConstants.{MOST_HARTS};

use super::*;
use img_text::read_image;
use mach_base::{Ending, Hart, Reason};
use std::alloc::Global;
use std::test::Fail;
use sym_map::Symbols;

/// A step, and what it prints; None where it isn't allowed.
type Row = (AStep, Option<&'static [u8]>);

/// A machine over this image and script.
fn machine(alloc: Global, image: &[u8], script: &[u8], harts: u8) -> Result<Atom, Fail>
    requires some_harts { 1 ≤ harts }
    requires few_harts { harts ≤ MOST_HARTS }
{
    let script = check_script(alloc, script)?;
    let image = read_image(alloc, image)?;
    Ok(Atom::start(alloc, &image, Symbols::empty(alloc), script, harts, 1000)?)
}

/// Whether the step prints this text, or is refused where there is none.
fn prints(atom: &mut Atom, step: AStep, want: Option<&[u8]>) -> bool {
    match atom.step(step) {
        Ok(printed) => match want {
            Some(text) => printed.as_bytes() == text,
            None => false,
        },
        Err(fault) => want.is_none() && fault == StepFault::NotNow,
    }
}

/// How many rows hold before the first that doesn't.
fn rows_that_hold(atom: &mut Atom, rows: &[Row]) -> usize {
    for (i, row) in rows.iter().enumerate() {
        if !prints(atom, row.0, row.1) {
            return i;
        }
    }
    rows.len()
}

/// The image of two instructions that do nothing and one that halts.
const TWO_AND_HALT: &[u8] =
    b"kimg 1\ntext 0x1000 16\nw 0x00000013 0x00000013 0x00000073 0x00000000\n";

/// A machine of so many harts over this script makes these rows: how many hold before the first that doesn't, how many
/// instructions it has executed, and its ending.
fn rows_made(
    alloc: Global,
    script: &[u8],
    harts: u8,
    rows: &[Row],
) -> Result<(usize, u64, Option<Ending>), Fail>
    requires some_harts { 1 ≤ harts }
    requires few_harts { harts ≤ MOST_HARTS }
{
    let mut atom = machine(alloc, TWO_AND_HALT, script, harts)?;
    let held = rows_that_hold(&mut atom, rows);
    Ok((held, atom.steps(), atom.over()))
}

/// What a session prints at its first opening, with hart 1 late.
const START: &[u8] =
    b"Timed out waiting for secondary CPUs: 1\nEntering kdb on processor 0 due to Start @ 0x0000000000001000\n";

/// What it prints as it opens again.
const AGAIN: &[u8] =
    b"Timed out waiting for secondary CPUs: 1\nEntering kdb on processor 0 due to Step @ 0x0000000000001004\n";

/// A late hart runs beside a session; a line leaves the session for one instruction, and it opens again.
static LATE: [Row; 12] = [
    (AStep::Instr(Hart(0)), None),
    (AStep::Enter(Hart(0), 0), None),
    (AStep::Enter(Hart(0), 2), Some(START)),
    (AStep::Instr(Hart(0)), None),
    (AStep::Instr(Hart(1)), Some(b"")),
    (AStep::Line, Some(b"[0]kdb> ss\n")),
    (AStep::End, None),
    (AStep::Instr(Hart(0)), Some(b"")),
    (AStep::Session(Hart(0)), None),
    (AStep::Enter(Hart(0), 2), Some(AGAIN)),
    (AStep::Off(Ending::AllHalted), None),
    (AStep::Off(Ending::ScriptEnd), Some(b"[0]kdb> \n")),
];

#[test]
fn steps_print_or_are_refused(rt: HostRuntime) -> Result<(), Fail> {
    let (held, steps, over) = rows_made(rt.alloc(), b"ss\n", 2, &LATE)?;
    assert_eq!(rt; (held, steps), (12, 2));
    assert!(rt; over == Some(Ending::ScriptEnd));
    Ok(())
}

/// The session of a machine with one hart.
const SESSION: &[u8] =
    b"Entering kdb on processor 0 due to Start @ 0x0000000000001000\n[0]kdb> go\n";

/// A machine with one hart: its session, its instructions, its end.
static TURNS: [Row; 7] = [
    (AStep::Intr(Hart(0)), None),
    (AStep::Session(Hart(0)), Some(SESSION)),
    (AStep::Instr(Hart(0)), Some(b"")),
    (AStep::Off(Ending::StepLimit), None),
    (AStep::Instr(Hart(0)), Some(b"")),
    (AStep::Instr(Hart(0)), Some(b"")),
    (AStep::Off(Ending::AllHalted), Some(b"")),
];

#[test]
fn turns_print(rt: HostRuntime) -> Result<(), Fail> {
    let (held, steps, over) = rows_made(rt.alloc(), b"go\n", 1, &TURNS)?;
    assert_eq!(rt; (held, steps), (7, 3));
    assert!(rt; over == Some(Ending::AllHalted));
    Ok(())
}

/// A banner into room that is there.
#[test]
fn puts_a_banner_into_room(rt: HostRuntime) -> Result<(), Fail> {
    let mut out = Vec::with_capacity(rt.alloc(), BANNER_BYTES)?;
    put_banner(&mut out, 0b1010, Hart(2), Reason::Breakpoint(3), 0x1000);
    let banner =
        b"Timed out waiting for secondary CPUs: 1 3\nEntering kdb on processor 2 due to Breakpoint 3 @ 0x0000000000001000\n";
    assert!(rt; out.as_slice() == banner.as_slice());
    Ok(())
}

#[test]
fn an_ending_has_a_line(rt: HostRuntime) -> Result<(), Fail> {
    let mut end = Vec::new(rt.alloc());
    push_ending_line(&mut end, Ending::StepLimit, 9)?;
    assert!(rt; end.as_slice() == b"kdbsim: step limit after 9 steps\n".as_slice());
    Ok(())
}
