//! Whole runs of two harts over the pure deck, by plans.
ghost use Rattle.std.specs.Prelude.{◌≡◌};
ghost use Rattle.deck_core.specs.contract.Told.{IsOpening};
ghost use Rattle.hart_prog.specs.Plan.{AllStand};

use crate::CoreBus;
use atom_mach::check_script;
use deck_core::{Bus, Deck, Flat};
use hart_prog::{Prog, programs, run_plan};
use img_text::read_image;
use mach_base::{Ending, Hart, OutOfMemory};
use std::alloc::Global;
use std::test::Fail;
use sym_map::Symbols;

/// The image of two instructions that do nothing and one that halts.
const TWO_AND_HALT: &[u8] =
    b"kimg 1\ntext 0x1000 16\nw 0x00000013 0x00000013 0x00000073 0x00000000\n";

/// A hart, and so many of its ticks.
type Ticks = (u8, u32);

/// Makes so many ticks of a hart.
fn make_ticks<B: Bus>(deck: &mut Flat<B>, progs: &mut [Prog], hart: Hart, ticks: u32)
    requires { AllStand (⟦<Flat<B> as Deck>⟧.whole deck.old) progs.old }
    ensures { AllStand (⟦<Flat<B> as Deck>⟧.whole deck.new) progs.new }
{
    for _ in 0..ticks {
        if (hart.0 as usize) < progs.len() {
            run_plan(deck, progs, &[hart]);
        }
    }
}

/// This bus of two harts after the plan, with 100 rounds of looks.
fn bus_after<B: Bus>(alloc: Global, bus: B, plan: &[Ticks]) -> Result<B, OutOfMemory>
    requires opening { IsOpening (B.told bus) }
    requires two { (B.told bus).harts ≡ 2 }
{
    let mut deck = Flat::new(alloc, bus, 100)?;
    let mut progs = programs(alloc, 2, 100)?;
    for &(hart, ticks) in plan {
        make_ticks(&mut deck, &mut progs, Hart(hart), ticks);
    }
    Ok(deck.into_bus())
}

/// What a plan leaves.
#[derive(Clone, Copy)]
struct Left {
    /// Whether it prints what is wanted.
    prints: bool,
    journal: u64,
    steps: u64,
    over: Option<Ending>,
    lost: bool,
    mask: u64,
    lines: u64,
}

/// What the plan leaves of the bus of two harts over this script, and whether it prints this text.
fn left_by(alloc: Global, script: &[u8], plan: &[Ticks], text: &[u8]) -> Result<Left, Fail> {
    let script = check_script(alloc, script)?;
    let image = read_image(alloc, TWO_AND_HALT)?;
    let bus = CoreBus::start(alloc, &image, Symbols::empty(alloc), script, 2, 1_000_000)?;
    let bus = bus_after(alloc, bus, plan)?;
    Ok(Left {
        prints: bus.core().transcript() == text,
        journal: bus.core().journal().len(),
        steps: bus.core().steps(),
        over: bus.over(),
        lost: bus.lost(),
        mask: bus.mask(),
        lines: bus.notes().lines,
    })
}

/// Hart 1 has seen the gate open, but its mark still has the old number when hart 0 shuts the gate again.
const OLD_MARK: &[Ticks] = &[
    (0, 12),
    (1, 5),
    (0, 19),
    (1, 1),
    (0, 25),
    (1, 7),
    (0, 49),
    (1, 100),
    (0, 20),
    (1, 100),
];

const OLD_MARK_TEXT: &str = "Entering kdb on processor 0 due to Start @ 0x0000000000001000
[0]kdb> bp 1004
BP #0 at 0x0000000000001004 enabled
[0]kdb> go
Entering kdb on processor 0 due to Breakpoint 0 @ 0x0000000000001004
[0]kdb> go
Entering kdb on processor 1 due to Breakpoint 0 @ 0x0000000000001004
[1]kdb> \n";

/// Both harts meet a breakpoint; hart 0 clears it, and hart 1 goes back without a session.
const GONE_TRAP: &[Ticks] = &[(0, 20), (1, 20), (0, 27), (1, 20), (0, 98), (1, 100)];

const GONE_TRAP_TEXT: &str = "Entering kdb on processor 0 due to Start @ 0x0000000000001000
[0]kdb> bp 1004
BP #0 at 0x0000000000001004 enabled
[0]kdb> go
Entering kdb on processor 0 due to Breakpoint 0 @ 0x0000000000001004
[0]kdb> bc 0
BP #0 cleared
[0]kdb> go
";

#[test]
fn an_old_mark_does_not_count(rt: HostRuntime) -> Result<(), Fail> {
    let text = OLD_MARK_TEXT.as_bytes();
    let left = left_by(rt.alloc(), b"bp 1004\ngo\ngo\n", OLD_MARK, text)?;
    assert!(rt; left.prints);
    assert_eq!(rt; (left.journal, left.steps), (25, 4));
    assert!(rt; left.over == Some(Ending::ScriptEnd) && !left.lost);
    assert_eq!(rt; left.mask, 0);
    Ok(())
}

#[test]
fn a_trap_that_is_gone_opens_no_session(rt: HostRuntime) -> Result<(), Fail> {
    let text = GONE_TRAP_TEXT.as_bytes();
    let left = left_by(rt.alloc(), b"bp 1004\ngo\nbc 0\ngo\n", GONE_TRAP, text)?;
    assert!(rt; left.prints);
    assert_eq!(rt; (left.journal, left.steps), (21, 6));
    assert!(rt; left.over == Some(Ending::AllHalted));
    assert_eq!(rt; left.lines, 4);
    Ok(())
}
