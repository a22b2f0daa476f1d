//! A plan's run, and a journal that isn't legal.

use super::*;
use atom_mach::check_script;
use img_text::read_image;
use jrn_text::read_journal;
use mach_base::Ending;
use plan_text::read_plan;
use std::test::Fail;
use sym_map::Symbols;

/// The image of two instructions that do nothing and one that halts.
const TWO_AND_HALT: &[u8] =
    b"kimg 1\ntext 0x1000 16\nw 0x00000013 0x00000013 0x00000073 0x00000000\n";

#[test]
fn a_plan_is_run_to_its_end(rt: HostRuntime) -> Result<(), Fail> {
    let alloc = rt.alloc();
    let image = read_image(alloc, TWO_AND_HALT)?;
    let script = check_script(alloc, b"go\n")?;
    let plan = read_plan(alloc, b"kplan 1\n0 x200\n", 1)?;
    let pace = Pace {
        harts: 1,
        limit: 10,
        rounds: 1,
    };
    let bus = run_plan_of(alloc, &image, Symbols::empty(alloc), script, pace, &plan)?;
    let told = record_of(alloc, bus.core())?;
    assert_eq!(rt; (told.ending, bus.core().steps()), (Ending::AllHalted, 3));
    Ok(())
}

#[test]
fn an_illegal_entry_is_named(rt: HostRuntime) -> Result<(), Fail> {
    let alloc = rt.alloc();
    let image = read_image(alloc, TWO_AND_HALT)?;
    let script = check_script(alloc, b"go\n")?;
    let journal = read_journal(alloc, b"kjrn 1 harts 2 steps 10\nC 1\nT 1\nS 0\n")?;
    let fault = replay(alloc, &image, Symbols::empty(alloc), script, &journal).err();
    assert!(rt; fault == Some(ReplayFault::BadStep { index: 2 }));
    Ok(())
}
