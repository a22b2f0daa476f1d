ghost use Rattle.std.specs.Prelude.{◌≡◌, ◌<◌, true};
ghost use Rattle.mach_base.specs.Masks.{has_bit};

use super::*;
use hart_ctx::Context;
use mach_base::{Hart, OutOfMemory, Text};
use std::alloc::{AllocError, Global};
use std::process::Abort;
use std::test::Fail;
use sym_map::Symbols;
use test_memory::ByteList;

/// The symbols `start` and `face`.
const SYMBOLS: &[u8] = b"0000000000001000 T start\n0000000000002000 D face\n";

/// Memory up to 0x2020, with two words at 0x2000.
fn memory(alloc: Global) -> Result<ByteList, AllocError> {
    let mut bytes = vec![in alloc; 0; 0x2000]?;
    bytes.extend_from_slice(b"\x88\x77\x66\x55\x44\x33\x22\x11")?;
    bytes.extend_from_slice(b"\x41\0\0\0\0\0\0\0")?;
    bytes.extend_from_slice(&[0; 16])?;
    Ok(ByteList::new(bytes))
}

/// A session of a machine with two processors, entered on processor 0.
#[derive(Drop)]
struct Bench {
    mem: ByteList,
    ctxs: [Context; 2],
    kdb: Kdb,
    names: Symbols,
    ghost current: { has_bit 3 kdb.current ≡ true },
}

impl Bench {
    /// The session after its start.
    #[tactic(auto, using(crate::proofs::Gathered::first_of_two))]
    fn new(alloc: Global) -> Result<Bench, Fail> {
        let kdb = Kdb::new(alloc)?;
        let names = Symbols::read(alloc, SYMBOLS)?;
        Ok(Bench {
            mem: memory(alloc)?,
            ctxs: [Context::new(0x1000, 0); 2],
            kdb,
            names,
        })
    }

    #[tactic(auto, using(crate::proofs::Gathered::first_of_two))]
    fn line(&mut self, alloc: Global, line: &[u8]) -> Result<Said, OutOfMemory> {
        run_line(
            alloc,
            &mut self.mem,
            &mut self.ctxs,
            &mut self.kdb,
            &self.names,
            3,
            Hart(0),
            line,
        )
    }
}

/// A line, and what it prints.
type Row = (&'static [u8], &'static [u8]);

/// Lines about memory; numbers are hexadecimal until RADIX is set.
static MEMORY: [Row; 18] = [
    (b"md1c1 face", b"0x0000000000002000 88  .\n"),
    (b"set RADIX=10", b""),
    (
        b"md1c2 face+8 | grep \"^0x\"",
        b"0x0000000000002008 41 00  A.\n",
    ),
    (b"md1c1 8194", b"0x0000000000002002 66  f\n"),
    (b"set RADIX 16", b""),
    (b"mdr 2000 2", b"8877\n"),
    (b"mds 2000 1", b"0x0000000000002000 1122334455667788\n"),
    (
        b"md4 face 1",
        b"0x0000000000002000 55667788 11223344 00000041 00000000  .wfUD3\".A.......\n",
    ),
    (b" # md 2000", b""),
    (b"md zork", b"diag: 1: unknown name zork\n"),
    (b"md4c0 zork", b"diag: 1: unknown name zork\n"),
    (b"md4c0 2000", b"diag: 17: bad count\n"),
    (b"md4c01 2000", b"diag: 5: unknown command md4c01\n"),
    (b"md \"2000", b"diag: 21: unclosed quote\n"),
    (b"md 2000 | sort", b"diag: 23: bad pipe\n"),
    (b"md zork | grep pc", b""),
    (
        b"mm2 2007 abcd",
        b"0x0000000000002007 = 0x000000000000abcd\n",
    ),
    (
        b"mm1 3000 100",
        b"diag: 12: bad address 0x0000000000003000\n",
    ),
];

/// Lines about registers, variables and breakpoints.
static PLACES: [Row; 14] = [
    (b"rm ra face+8", b"ra = 0x0000000000002008\n"),
    (b"rm zero 1", b"diag: 10: bad register zero\n"),
    (b"rd | grep pc", b"  pc: 0000000000001000\n"),
    (b"set a=b c", b"diag: 24: bad name a=b\n"),
    (
        b"env",
        b"PROMPT=[%d]kdb> \nRADIX=16\nMDCOUNT=8\nBYTESPERWORD=8\nLINES=24\n",
    ),
    (b"bc *", b"No breakpoints are set\n"),
    (
        b"bp start",
        b"BP #0 at 0x0000000000001000 (start) enabled\n",
    ),
    (b"bd *", b"BP #0 disabled\n"),
    (b"bl", b"BP #0 at 0x0000000000001000 (start) disabled\n"),
    (b"bc", b"diag: 2: wrong number of arguments\n"),
    (b"bc 3", b"diag: 9: no breakpoint 3\n"),
    (b"bp 1000", b"diag: 8: duplicate\n"),
    (b"bp 2000", b"diag: 13: not text 0x0000000000002000\n"),
    (b"bp 1002", b"diag: 12: bad address 0x0000000000001002\n"),
];

/// Frames that lead over the data, and two processors.
static FRAMES: [Row; 13] = [
    (b"rm s0 2010", b"s0 = 0x0000000000002010\n"),
    (
        b"mm 2008 1004",
        b"0x0000000000002008 = 0x0000000000001004\n",
    ),
    (
        b"mm 2000 2020",
        b"0x0000000000002000 = 0x0000000000002020\n",
    ),
    (
        b"mm 2018 1008",
        b"0x0000000000002018 = 0x0000000000001008\n",
    ),
    (
        b"mm 2010 2010",
        b"0x0000000000002010 = 0x0000000000002010\n",
    ),
    (
        b"bt",
        b"#0 0x0000000000001000 (start)\n#1 0x0000000000001004 (start+0x4)\n#2 0x0000000000001008 (start+0x8)\n",
    ),
    (b"cpu", b"Currently on cpu 0\nAvailable cpus: 0, 1\n"),
    (b"cpu 9", b"diag: 14: bad cpu 9\n"),
    (b"cpu 1", b"Currently on cpu 1\n"),
    (b"go", b"diag: 15: entered on cpu 0\n"),
    (
        b"btc | grep start)$",
        b"#0 0x0000000000001000 (start)\n#0 0x0000000000001000 (start)\n",
    ),
    (b"cpu 0", b"Currently on cpu 0\n"),
    (b"help | grep ^bt", b"bt\nbtc\n"),
];

/// A macro that leaves, and one whose line calls it.
static MACROS: [Row; 14] = [
    (
        b"mm2 2007 abcd",
        b"0x0000000000002007 = 0x000000000000abcd\n",
    ),
    (b"defcmd w", b""),
    (b"md1c1 face+8", b""),
    (b"go", b""),
    (b"md1c1 face+1", b""),
    (b" endefcmd\t", b""),
    (b"defcmd v usage help", b""),
    (b"w 1", b""),
    (b"md1c1 face+8", b""),
    (b"endefcmd", b""),
    (
        b"v",
        b"diag: 18: nested macro w\n0x0000000000002008 ab  .\n",
    ),
    (b"v 1", b"diag: 2: wrong number of arguments\n"),
    (b"defcmd w", b"diag: 8: duplicate\n"),
    (b"defcmd md4c0", b"diag: 19: reserved name md4c0\n"),
];

/// Whether the line prints this text, and the session goes on.
fn prints(alloc: Global, bench: &mut Bench, line: &[u8], text: &[u8]) -> Result<bool, OutOfMemory> {
    let said = bench.line(alloc, line)?;
    Ok(said.text.as_bytes() == text && said.outcome == Outcome::Stay)
}

/// How many rows hold before the first that doesn't.
fn rows_that_hold(alloc: Global, bench: &mut Bench, rows: &[Row]) -> Result<usize, OutOfMemory> {
    for (i, row) in rows.iter().enumerate() {
        if !prints(alloc, bench, row.0, row.1)? {
            return Ok(i);
        }
    }
    Ok(rows.len())
}

/// All rows hold, in a session of their own.
fn rows_hold(rt: &impl Abort, alloc: Global, rows: &[Row]) -> Result<(), Fail> {
    let mut bench = Bench::new(alloc)?;
    assert_eq!(rt; rows_that_hold(alloc, &mut bench, rows)?, rows.len());
    Ok(())
}

#[test]
fn lines_about_memory_print(rt: HostRuntime) -> Result<(), Fail> {
    rows_hold(&rt, rt.alloc(), &MEMORY)
}

#[test]
fn lines_about_registers_and_breakpoints_print(rt: HostRuntime) -> Result<(), Fail> {
    rows_hold(&rt, rt.alloc(), &PLACES)
}

#[test]
fn lines_about_macros_print(rt: HostRuntime) -> Result<(), Fail> {
    rows_hold(&rt, rt.alloc(), &MACROS)
}

#[test]
fn lines_about_frames_print(rt: HostRuntime) -> Result<(), Fail> {
    rows_hold(&rt, rt.alloc(), &FRAMES)
}

/// What the session does after this line.
fn outcome_of(alloc: Global, bench: &mut Bench, line: &[u8]) -> Result<Outcome, OutOfMemory> {
    let said = bench.line(alloc, line)?;
    Ok(said.outcome)
}

#[test]
fn a_line_leaves_the_session(rt: HostRuntime) -> Result<(), Fail> {
    let mut bench = Bench::new(rt.alloc())?;
    assert_eq!(rt; outcome_of(rt.alloc(), &mut bench, b"ss")?, Outcome::Step);
    assert_eq!(rt;
        outcome_of(rt.alloc(), &mut bench, b"go 1008")?,
        Outcome::Go
    );
    let context = bench.ctxs[0];
    assert_eq!(rt; context.pc, 0x1008);
    Ok(())
}

/// Halts processor 0.
fn halt_first(ctxs: &mut [Context; 2]) {
    let mut context = ctxs[0];
    context.halted = true;
    ctxs[0] = context;
}

#[test]
fn a_halted_processor_makes_no_step(rt: HostRuntime) -> Result<(), Fail> {
    let mut bench = Bench::new(rt.alloc())?;
    halt_first(&mut bench.ctxs);
    assert!(rt;
        prints(
            rt.alloc(),
            &mut bench,
            b"ss",
            b"diag: 16: cpu 0 is halted\n"
        )?
    );
    Ok(())
}
