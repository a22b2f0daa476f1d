//! Runs of two harts, whose workers pause as a test wants it.
use super::*;
use deck_core::Pause;
use io_edge::{MemShelf, MemSink, Named};
use mach_base::{Ending, Hart, Text};
use run_join::Millisecond;
use std::alloc::{AllocError, Global};
use std::sync::Wait;
use std::sync::atomic::{AtomicU64, Ordering};
use std::test::Fail;
use std::thread::Threads;

/// Two instructions that do nothing, and the end.
const NOPS: &str = "kimg 1\ntext 0x1000 16\nw 0x00000013 0x00000013 0x00000073\n";

/// A breakpoint of the image on the way of hart 0; hart 1 starts at the end.
const APART: &str = "kimg 1\ntext 0x1000 16\nw 0x00500513 0x00100073 0x00000073\npc 1 0x1008\n";

const APART_TEXT: &[u8] = b"Entering kdb on processor 0 due to Start @ 0x0000000000001000
[0]kdb> go
Entering kdb on processor 0 due to Compiled breakpoint @ 0x0000000000001004
[0]kdb> go
kdbsim: all halted after 4 steps\n";

const LATE: &[u8] = b"Timed out waiting for secondary CPUs: 1\n";

fn named(alloc: Global, name: &str, bytes: &str) -> Result<Named, AllocError> {
    Ok(Named {
        name: Text::from_vec(name.as_bytes().to_vec(alloc)?),
        bytes: Text::from_vec(bytes.as_bytes().to_vec(alloc)?),
    })
}

/// A shelf of this image and this script, with an empty map, on which the call of this number fails.
fn shelf_of(
    alloc: Global,
    image: &str,
    script: &str,
    failing: u64,
) -> Result<MemShelf, AllocError> {
    let mut files = Vec::new(alloc);
    files.push(named(alloc, "i", image)?)?;
    files.push(named(alloc, "m", "")?)?;
    files.push(named(alloc, "s", script)?)?;
    Ok(MemShelf::new(alloc, files, [failing].to_vec(alloc)?))
}

fn words_of(alloc: Global) -> Result<Vec<String>, AllocError> {
    let mut words = Vec::new(alloc);
    for word in "run i m s out --harts 2 --rounds 10000".split_whitespace() {
        words.push(String::from_str(alloc, word)?)?;
    }
    Ok(words)
}

/// The answer to a run of two harts on the shelf, and its transcript.
fn run_two<R: Threads + Wait + Sync, P: Pause + Copy + Send>(
    rt: &R,
    alloc: Global,
    mut shelf: MemShelf,
    pause: P,
) -> Result<(Status, Vec<u8>), AllocError> {
    let mut sink = MemSink::new(alloc, Vec::new(alloc), 0);
    let words = words_of(alloc)?;
    let status = kdbsim(rt, alloc, words.as_slice(), &mut shelf, &mut sink, pause);
    let text = sink.bytes().to_vec(alloc)?;
    Ok((status, text))
}

/// The text without the lines that name hart 1 as late, and whether there were any.
fn without_late_lines(alloc: Global, text: &[u8]) -> Result<(Vec<u8>, bool), AllocError> {
    let mut kept = Vec::new(alloc);
    let mut is_late = false;
    for line in text.split_inclusive(|byte| *byte == b'\n') {
        if line == LATE {
            is_late = true;
        } else {
            kept.extend_from_slice(line)?;
        }
    }
    Ok((kept, is_late))
}

/// What the pauses of two workers share: how many are inside, and what came of it.
#[derive(Drop)]
struct Meeting {
    inside: AtomicU64,
    outcome: AtomicU64,
}

const MET: u64 = 1;

const GIVEN_UP: u64 = 2;

impl Meeting {
    fn new() -> Meeting {
        Meeting {
            inside: AtomicU64::new(0),
            outcome: AtomicU64::new(0),
        }
    }

    /// Whether two pauses are inside before this one has looked so often.
    fn sees_another(&self) -> bool {
        for _ in 0..50_000_000u32 {
            if self.inside.load(Ordering::SeqCst) == 2 {
                return true;
            }
        }
        false
    }

    fn decide(&self, outcome: u64) {
        let _ = self
            .outcome
            .compare_exchange(0, outcome, Ordering::SeqCst, Ordering::SeqCst);
    }
}

/// A pause that waits inside for another worker's, until two have met or one has given up.
#[derive_where(Clone, Copy)]
struct Meet<'a> {
    meeting: &'a Meeting,
}

impl Pause for Meet<'_> {
    fn pause(&mut self, _h: Hart) {
        if self.meeting.outcome.load(Ordering::SeqCst) != 0 {
            return;
        }
        let _ = self.meeting.inside.fetch_add(1, Ordering::SeqCst);
        if self.meeting.sees_another() {
            self.meeting.decide(MET);
        } else {
            let _ = self.meeting.inside.fetch_sub(1, Ordering::SeqCst);
            self.meeting.decide(GIVEN_UP);
        }
    }
}

/// In one of 20 runs two workers are in their pauses at the same time; on one thread they never are.
#[test]
fn workers_pause_beside_each_other(rt: HostRuntime) -> Result<(), Fail> {
    let alloc = rt.alloc();
    let mut have_met = false;
    for _ in 0..20 {
        let meeting = Meeting::new();
        let shelf = shelf_of(alloc, NOPS, "go\n", 9)?;
        let pause = Meet { meeting: &meeting };
        let (status, _) = run_two(&rt, alloc, shelf, pause)?;
        assert_eq!(rt; status, Status::Done(Ending::AllHalted));
        if meeting.outcome.load(Ordering::SeqCst) == MET {
            have_met = true;
        }
    }
    assert!(rt; have_met);
    Ok(())
}

/// What the pauses of two workers share: how often hart 0 paused, and whether hart 1 was held.
#[derive(Drop)]
struct Holding {
    pauses: AtomicU64,
    held: AtomicU64,
}

impl Holding {
    /// Waits until hart 0 has paused 20,000 times more, or until this one has looked so often.
    fn hold(&self) {
        let first = self.pauses.load(Ordering::SeqCst);
        for _ in 0..50_000_000u32 {
            let now = self.pauses.load(Ordering::SeqCst);
            if now.wrapping_sub(first) >= 20_000 {
                return;
            }
        }
    }
}

/// A pause in which hart 1 is held once, while hart 0 looks for it.
#[derive_where(Clone, Copy)]
struct Hold<'a> {
    holding: &'a Holding,
}

impl Pause for Hold<'_> {
    fn pause(&mut self, h: Hart) {
        if h.0 == 0 {
            let _ = self.holding.pauses.fetch_add(1, Ordering::SeqCst);
        } else if self.holding.held.swap(1, Ordering::SeqCst) == 0 {
            self.holding.hold();
        }
    }
}

/// There is no late hart where each pause sleeps.
#[test]
fn nobody_is_late_where_pauses_sleep(rt: HostRuntime) -> Result<(), Fail> {
    let alloc = rt.alloc();
    let shelf = shelf_of(alloc, APART, "go\ngo\n", 9)?;
    let (status, text) = run_two(&rt, alloc, shelf, Millisecond::new(&rt))?;
    assert_eq!(rt; status, Status::Done(Ending::AllHalted));
    assert_eq!(rt; text.as_slice(), APART_TEXT);
    Ok(())
}

/// In one of 20 runs hart 1 is late while its worker is held, and nothing else is another.
#[test]
fn a_worker_that_is_held_makes_its_hart_late(rt: HostRuntime) -> Result<(), Fail> {
    let alloc = rt.alloc();
    let mut was_late = false;
    for _ in 0..20 {
        let holding = Holding {
            pauses: AtomicU64::new(0),
            held: AtomicU64::new(0),
        };
        let shelf = shelf_of(alloc, APART, "go\ngo\n", 9)?;
        let pause = Hold { holding: &holding };
        let (status, text) = run_two(&rt, alloc, shelf, pause)?;
        assert_eq!(rt; status, Status::Done(Ending::AllHalted));
        let (kept, is_late) = without_late_lines(alloc, text.as_slice())?;
        assert_eq!(rt; kept.as_slice(), APART_TEXT);
        if is_late {
            was_late = true;
        }
    }
    assert!(rt; was_late);
    Ok(())
}

/// The shelf fails at the second file that a run reads.
#[test]
fn a_run_cannot_read_its_map(rt: HostRuntime) -> Result<(), Fail> {
    let alloc = rt.alloc();
    let shelf = shelf_of(alloc, NOPS, "go\n", 1)?;
    let (status, text) = run_two(&rt, alloc, shelf, Millisecond::new(&rt))?;
    assert_eq!(rt; status, Status::ReadFault(File::Map));
    assert!(rt; text.is_empty());
    Ok(())
}
