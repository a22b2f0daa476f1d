use super::*;
use deck_core::Counted;
use elf_img::ElfWhy;
use io_edge::{MemShelf, MemSink, Named};
use mach_base::{Ending, Text};
use std::alloc::{AllocError, Global};
use std::test::Fail;

/// A jump to itself.
const IMAGE: &str = "kimg 1\ntext 0x1000 8\nw 0x0000006f\n";

const JOURNAL: &str = "kjrn 1 harts 1 steps 5\nO 0 -\nL 0\nE 0\nS 0\nS 0\nS 0\nS 0\nS 0\nF limit\n";

const TRANSCRIPT: &str = "Entering kdb on processor 0 due to Start @ 0x0000000000001000
[0]kdb> go
kdbsim: step limit after 5 steps\n";

// An executable of one segment of text: li a0, 5; ebreak; ecall.
const ELF: [u8; 132] = [
    0x7f, 0x45, 0x4c, 0x46, 0x02, 0x01, 0x01, 0x00, 0x00, 0x00, 0x00, 0x00, 0x00, 0x00, 0x00, 0x00,
    0x02, 0x00, 0xf3, 0x00, 0x01, 0x00, 0x00, 0x00, 0x00, 0x10, 0x00, 0x00, 0x00, 0x00, 0x00, 0x00,
    0x40, 0x00, 0x00, 0x00, 0x00, 0x00, 0x00, 0x00, 0x00, 0x00, 0x00, 0x00, 0x00, 0x00, 0x00, 0x00,
    0x00, 0x00, 0x00, 0x00, 0x40, 0x00, 0x38, 0x00, 0x01, 0x00, 0x00, 0x00, 0x00, 0x00, 0x00, 0x00,
    0x01, 0x00, 0x00, 0x00, 0x05, 0x00, 0x00, 0x00, 0x78, 0x00, 0x00, 0x00, 0x00, 0x00, 0x00, 0x00,
    0x00, 0x10, 0x00, 0x00, 0x00, 0x00, 0x00, 0x00, 0x00, 0x10, 0x00, 0x00, 0x00, 0x00, 0x00, 0x00,
    0x0c, 0x00, 0x00, 0x00, 0x00, 0x00, 0x00, 0x00, 0x0c, 0x00, 0x00, 0x00, 0x00, 0x00, 0x00, 0x00,
    0x08, 0x00, 0x00, 0x00, 0x00, 0x00, 0x00, 0x00, 0x13, 0x05, 0x50, 0x00, 0x73, 0x00, 0x10, 0x00,
    0x73, 0x00, 0x00, 0x00,
];

const CONVERTED: &str = "Entering kdb on processor 0 due to Start @ 0x0000000000001000
[0]kdb> go
Entering kdb on processor 0 due to Compiled breakpoint @ 0x0000000000001004
[0]kdb> rd
zero: 0000000000000000    ra: 0000000000000000    sp: 0000000000000000    gp: 0000000000000000
  tp: 0000000000000000    t0: 0000000000000000    t1: 0000000000000000    t2: 0000000000000000
  s0: 0000000000000000    s1: 0000000000000000    a0: 0000000000000005    a1: 0000000000000000
  a2: 0000000000000000    a3: 0000000000000000    a4: 0000000000000000    a5: 0000000000000000
  a6: 0000000000000000    a7: 0000000000000000    s2: 0000000000000000    s3: 0000000000000000
  s4: 0000000000000000    s5: 0000000000000000    s6: 0000000000000000    s7: 0000000000000000
  s8: 0000000000000000    s9: 0000000000000000   s10: 0000000000000000   s11: 0000000000000000
  t3: 0000000000000000    t4: 0000000000000000    t5: 0000000000000000    t6: 0000000000000000
  pc: 0000000000001004
[0]kdb> go
kdbsim: all halted after 3 steps\n";

fn named(alloc: Global, name: &str, bytes: &[u8]) -> Result<Named, AllocError> {
    Ok(Named {
        name: Text::from_vec(name.as_bytes().to_vec(alloc)?),
        bytes: Text::from_vec(bytes.to_vec(alloc)?),
    })
}

/// The shelf of the image, an empty map, the script and the plan, of which the call of this number fails.
fn shelf_of(alloc: Global, failing: u64) -> Result<MemShelf, AllocError> {
    let mut files = Vec::new(alloc);
    files.push(named(alloc, "i", IMAGE.as_bytes())?)?;
    files.push(named(alloc, "m", b"")?)?;
    files.push(named(alloc, "s", b"go\n")?)?;
    files.push(named(alloc, "p", b"kplan 1\n0 x100\n")?)?;
    Ok(MemShelf::new(alloc, files, [failing].to_vec(alloc)?))
}

fn words(alloc: Global, line: &str) -> Result<Vec<String>, AllocError> {
    let mut words = Vec::new(alloc);
    for word in line.split_whitespace() {
        words.push(String::from_str(alloc, word)?)?;
    }
    Ok(words)
}

/// The answer to these words without threads, where these calls of the shelf and of the sink fail; whether a journal was
/// written, and whether a text was printed.
fn answer_alone(
    alloc: Global,
    line: &str,
    shelf_fails: u64,
    sink_fails: u64,
) -> Result<(Option<Status>, bool, bool), AllocError> {
    let mut shelf = shelf_of(alloc, shelf_fails)?;
    let mut sink = MemSink::new(alloc, [sink_fails].to_vec(alloc)?, 0);
    let words = words(alloc, line)?;
    let status = alone(alloc, words.as_slice(), &mut shelf, &mut sink);
    let written = shelf.bytes("out").is_some();
    Ok((status, written, !sink.bytes().is_empty()))
}

const LOCKSTEP: &str = "lockstep i m s p out --steps 5";

#[test]
fn run_writes_its_journal(rt: HostRuntime) -> Result<(), Fail> {
    let alloc = rt.alloc();
    let mut shelf = shelf_of(alloc, 9)?;
    let mut sink = MemSink::new(alloc, Vec::new(alloc), 0);
    let words = words(alloc, "run i m s out --steps 5")?;
    let pause = Counted::new();
    let status = kdbsim(&rt, alloc, words.as_slice(), &mut shelf, &mut sink, pause);
    assert_eq!(rt; status, Status::Done(Ending::StepLimit));
    assert_eq!(rt; sink.bytes(), TRANSCRIPT.as_bytes());
    assert_eq!(rt; shelf.bytes("out"), Some(JOURNAL.as_bytes()));
    Ok(())
}

#[test]
fn answers_without_threads(rt: HostRuntime) -> Result<(), Fail> {
    let alloc = rt.alloc();
    let done = Some(Status::Done(Ending::StepLimit));
    assert!(rt; answer_alone(alloc, LOCKSTEP, 9, 9)? == (done, true, true));
    let lost = Some(Status::WriteFault);
    assert!(rt; answer_alone(alloc, LOCKSTEP, 4, 9)? == (lost, false, false));
    assert!(rt; answer_alone(alloc, LOCKSTEP, 9, 0)? == (lost, true, false));
    let map = Some(Status::ReadFault(File::Map));
    assert!(rt; answer_alone(alloc, LOCKSTEP, 1, 9)? == (map, false, false));
    assert!(rt; answer_alone(alloc, "run i m s out", 9, 9)? == (None, false, false));
    assert!(rt; answer_alone(alloc, "uni i", 9, 9)? == (Some(Status::Usage), false, false));
    Ok(())
}

/// The answer to these words over a shelf of one file `f` besides a script `s`, and whether `out` is written.
fn answer_to_file(
    alloc: Global,
    line: &str,
    bytes: &[u8],
) -> Result<(Option<Status>, bool), AllocError> {
    let mut shelf = file_shelf(alloc, bytes)?;
    let mut sink = MemSink::new(alloc, Vec::new(alloc), 0);
    let words = words(alloc, line)?;
    let status = alone(alloc, words.as_slice(), &mut shelf, &mut sink);
    Ok((status, shelf.bytes("out").is_some()))
}

fn file_shelf(alloc: Global, bytes: &[u8]) -> Result<MemShelf, AllocError> {
    let mut files = Vec::new(alloc);
    files.push(named(alloc, "f", bytes)?)?;
    files.push(named(alloc, "s", b"go\nrd\ngo\n")?)?;
    Ok(MemShelf::new(alloc, files, Vec::new(alloc)))
}

/// The bytes with one of them changed.
fn changed(alloc: Global, at: usize, byte: u8) -> Result<Vec<u8>, AllocError> {
    let mut bytes = ELF.to_vec(alloc)?;
    if at < bytes.len() {
        bytes[at] = byte;
    }
    Ok(bytes)
}

#[test]
fn files_are_made_or_refused(rt: HostRuntime) -> Result<(), Fail> {
    let alloc = rt.alloc();
    let source = b"kasm 1\ntext 0x1000 8\nhere:\naddi a0, zero, 4096\n";
    let bad = Some(Status::BadSource { line: 4 });
    assert!(rt; answer_to_file(alloc, "asm f out", source)? == (bad, false));
    let machine = changed(alloc, 18, 62)?;
    let compressed = changed(alloc, 48, 1)?;
    for (bytes, why) in [
        (machine.as_slice(), ElfWhy::Machine),
        (compressed.as_slice(), ElfWhy::Compressed),
        (&ELF[..130], ElfWhy::Bounds),
    ] {
        let bad = Some(Status::BadElf { why });
        assert!(rt; answer_to_file(alloc, "elf f out m", bytes)? == (bad, false));
    }
    Ok(())
}

#[test]
fn an_executable_is_converted_and_run(rt: HostRuntime) -> Result<(), Fail> {
    let alloc = rt.alloc();
    let mut shelf = file_shelf(alloc, &ELF)?;
    let mut sink = MemSink::new(alloc, Vec::new(alloc), 0);
    let elf = words(alloc, "elf f out m")?;
    let made = alone(alloc, elf.as_slice(), &mut shelf, &mut sink);
    assert!(rt; made == Some(Status::Made));
    let uni = words(alloc, "uni out s")?;
    let ran = alone(alloc, uni.as_slice(), &mut shelf, &mut sink);
    assert!(rt; ran == Some(Status::Done(Ending::AllHalted)));
    assert_eq!(rt; sink.bytes(), CONVERTED.as_bytes());
    Ok(())
}

/// Stores below and above each bound of a page: the 8,200 bytes of data are pages of 4,096, 4,096 and 8 bytes.
const PAGES: &str = "kimg 1\ntext 0x1000 32\nw 0x00003537 0xfea53c23 0x00a53023 0x000045b7\n\
w 0xfeb5bc23 0x00b5b023 0x00100073 0x00000073\ndata 0x2000 8200\n";

const STORED: &str = "Entering kdb on processor 0 due to Start @ 0x0000000000001000
[0]kdb> go
Entering kdb on processor 0 due to Compiled breakpoint @ 0x0000000000001018
[0]kdb> md8 2ff8 1
0x0000000000002ff8 0000000000003000 0000000000003000  .0.......0......
[0]kdb> md8 3ff8 1
0x0000000000003ff8 0000000000004000 0000000000004000  .@.......@......
[0]kdb> go
kdbsim: all halted after 8 steps\n";

#[test]
fn stores_at_the_bounds_of_pages(rt: HostRuntime) -> Result<(), Fail> {
    let alloc = rt.alloc();
    let mut files = Vec::new(alloc);
    files.push(named(alloc, "i", PAGES.as_bytes())?)?;
    files.push(named(alloc, "s", b"go\nmd8 2ff8 1\nmd8 3ff8 1\ngo\n")?)?;
    let mut shelf = MemShelf::new(alloc, files, Vec::new(alloc));
    let mut sink = MemSink::new(alloc, Vec::new(alloc), 0);
    let words = words(alloc, "uni i s")?;
    let status = alone(alloc, words.as_slice(), &mut shelf, &mut sink);
    assert!(rt; status == Some(Status::Done(Ending::AllHalted)));
    assert_eq!(rt; sink.bytes(), STORED.as_bytes());
    Ok(())
}
