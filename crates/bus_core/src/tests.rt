use super::*;
use atom_mach::check_script;
use img_text::read_image;
use mach_base::{Ending, Entry, Hart};
use std::alloc::Global;
use std::test::Fail;
use sym_map::Symbols;

/// The image of two instructions that do nothing and one that halts.
const TWO_AND_HALT: &[u8] =
    b"kimg 1\ntext 0x1000 16\nw 0x00000013 0x00000013 0x00000073 0x00000000\n";

/// The core of two harts over this image and script.
fn core_of(alloc: Global, image: &[u8], script: &[u8]) -> Result<Core, Fail> {
    let script = check_script(alloc, script)?;
    let image = read_image(alloc, image)?;
    Ok(Core::start(alloc, &image, Symbols::empty(alloc), script, 2, 1_000_000)?)
}

/// How many of these entries are made before the first that is refused.
fn entries_made(core: &mut Core, entries: &[Entry]) -> usize {
    for (i, entry) in entries.iter().enumerate() {
        if core.apply(*entry).is_err() {
            return i;
        }
    }
    entries.len()
}

/// Whether this entry is not legal.
fn is_refused(core: &mut Core, entry: Entry) -> bool {
    match core.apply(entry) {
        Err(ApplyFault::NotLegal) => true,
        _ => false,
    }
}

/// How many of these entries are not legal before the first that is.
fn entries_refused(core: &mut Core, entries: &[Entry]) -> usize {
    for (i, entry) in entries.iter().enumerate() {
        if !is_refused(core, *entry) {
            return i;
        }
    }
    entries.len()
}

/// What entries leave.
#[derive(Clone, Copy)]
struct Left {
    /// How many were made.
    made: usize,
    /// Whether they print what is wanted.
    prints: bool,
    journal: u64,
    steps: u64,
    over: Option<Ending>,
    lost: bool,
}

/// What these entries leave of a core over this script, and whether they print this text.
fn left_by(alloc: Global, script: &[u8], entries: &[Entry], text: &[u8]) -> Result<Left, Fail> {
    let mut core = core_of(alloc, TWO_AND_HALT, script)?;
    Ok(Left {
        made: entries_made(&mut core, entries),
        prints: core.transcript() == text,
        journal: core.journal().len(),
        steps: core.steps(),
        over: core.over(),
        lost: core.lost(),
    })
}

/// How many entries a core over this script has made after these entries, and how many of the others were not legal.
fn refused_after(
    alloc: Global,
    script: &[u8],
    entries: &[Entry],
    others: &[Entry],
) -> Result<(u64, usize), Fail> {
    let mut core = core_of(alloc, TWO_AND_HALT, script)?;
    entries_made(&mut core, entries);
    let refused = entries_refused(&mut core, others);
    Ok((core.journal().len(), refused))
}

const ZERO: Hart = Hart(0);

const ONE: Hart = Hart(1);

/// The script of a trap that is gone.
const GONE_SCRIPT: &[u8] = b"bp 1004\ngo\nbc 0\ngo\n";

/// The opening of the first session.
static OPENING: [Entry; 3] = [Entry::Send(ONE), Entry::Take(ONE), Entry::Open(ZERO, 0)];

#[test]
fn no_step_is_legal_in_a_session(rt: HostRuntime) -> Result<(), Fail> {
    let step = [Entry::Step(ZERO)];
    assert_eq!(rt;
        refused_after(rt.alloc(), GONE_SCRIPT, &OPENING, &step)?,
        (3, 1)
    );
    Ok(())
}

#[test]
fn an_opening_is_no_step(rt: HostRuntime) -> Result<(), Fail> {
    let text = b"Entering kdb on processor 0 due to Start @ 0x0000000000001000\n";
    let left = left_by(rt.alloc(), GONE_SCRIPT, &OPENING, text)?;
    assert!(rt; left.prints);
    assert_eq!(rt; (left.made, left.journal, left.steps), (3, 3, 0));
    assert!(rt; left.over.is_none() && !left.lost);
    Ok(())
}

/// A trap that is gone once its hart may open a session, and one that a hart meets after its mark was missed.
static GONE_ENTRIES: [Entry; 21] = [
    Entry::Send(ONE),
    Entry::Take(ONE),
    Entry::Open(ZERO, 0),
    Entry::Line(ZERO),
    Entry::Line(ZERO),
    Entry::Plant(0),
    Entry::Close(ZERO),
    Entry::Step(ZERO),
    Entry::Step(ONE),
    Entry::Send(ONE),
    Entry::Open(ZERO, 0),
    Entry::Pull(0),
    Entry::Line(ZERO),
    Entry::Line(ZERO),
    Entry::Close(ZERO),
    Entry::Step(ZERO),
    Entry::Step(ZERO),
    Entry::Take(ONE),
    Entry::Step(ONE),
    Entry::Step(ONE),
    Entry::Off(Ending::AllHalted),
];

#[test]
fn a_trap_that_is_gone_opens_no_session(rt: HostRuntime) -> Result<(), Fail> {
    let left = left_by(rt.alloc(), GONE_SCRIPT, &GONE_ENTRIES, GONE.as_bytes())?;
    assert!(rt; left.prints);
    assert_eq!(rt; (left.made, left.journal, left.steps), (21, 21, 6));
    assert!(rt; left.over == Some(Ending::AllHalted));
    Ok(())
}

/// What the entries of a trap that is gone print.
const GONE: &str = "Entering kdb on processor 0 due to Start @ 0x0000000000001000
[0]kdb> bp 1004
BP #0 at 0x0000000000001004 enabled
[0]kdb> go
Entering kdb on processor 0 due to Breakpoint 0 @ 0x0000000000001004
[0]kdb> bc 0
BP #0 cleared
[0]kdb> go
";

/// The script of a single-step pass.
const PASS_SCRIPT: &[u8] = b"bp 1004\ngo\ngo\n";

/// A single-step pass over a breakpoint, and a session of another hart at it.
static PASS_ENTRIES: [Entry; 25] = [
    Entry::Send(ONE),
    Entry::Take(ONE),
    Entry::Open(ZERO, 0),
    Entry::Line(ZERO),
    Entry::Line(ZERO),
    Entry::Plant(0),
    Entry::Close(ZERO),
    Entry::Step(ZERO),
    Entry::Send(ONE),
    Entry::Take(ONE),
    Entry::Open(ZERO, 0),
    Entry::Pull(0),
    Entry::Line(ZERO),
    Entry::PlantStep(0x1008),
    Entry::Step(ZERO),
    Entry::PullStep,
    Entry::Plant(0),
    Entry::Close(ZERO),
    Entry::Step(ZERO),
    Entry::Step(ONE),
    Entry::Send(ZERO),
    Entry::Take(ZERO),
    Entry::Open(ONE, 0),
    Entry::Pull(0),
    Entry::Off(Ending::ScriptEnd),
];

#[test]
fn a_pass_prints_its_sessions(rt: HostRuntime) -> Result<(), Fail> {
    let left = left_by(rt.alloc(), PASS_SCRIPT, &PASS_ENTRIES, PASSED.as_bytes())?;
    assert!(rt; left.prints);
    assert_eq!(rt; (left.made, left.journal, left.steps), (25, 25, 4));
    assert!(rt; left.over == Some(Ending::ScriptEnd));
    Ok(())
}

/// One entry of each kind.
static KINDS: [Entry; 12] = [
    Entry::Step(ZERO),
    Entry::Intr(ZERO),
    Entry::Send(ZERO),
    Entry::Take(ZERO),
    Entry::Open(ZERO, 0),
    Entry::Pull(0),
    Entry::Line(ONE),
    Entry::PlantStep(0x1008),
    Entry::PullStep,
    Entry::Plant(0),
    Entry::Close(ONE),
    Entry::Off(Ending::AllHalted),
];

#[test]
fn after_the_end_no_entry_is_legal(rt: HostRuntime) -> Result<(), Fail> {
    let made = refused_after(rt.alloc(), PASS_SCRIPT, &PASS_ENTRIES, &KINDS)?;
    assert_eq!(rt; made, (25, 12));
    Ok(())
}

/// What the entries of a pass print.
const PASSED: &str = "Entering kdb on processor 0 due to Start @ 0x0000000000001000
[0]kdb> bp 1004
BP #0 at 0x0000000000001004 enabled
[0]kdb> go
Entering kdb on processor 0 due to Breakpoint 0 @ 0x0000000000001004
[0]kdb> go
Entering kdb on processor 1 due to Breakpoint 0 @ 0x0000000000001004
[1]kdb> \n";
