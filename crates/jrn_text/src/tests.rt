use crate::{JournalFault, read_journal, write_journal};
use mach_base::What;
use std::test::Fail;

/// The journal of a jump to itself that is stopped twice.
const JUMP: &[u8] =
    b"kjrn 1 harts 1 steps 1000000\nO 0 -\nL 0\nL 0\nS 0\nP 0\nE 0\nO 0 -\nU 0\nL 0\nS 0\nP 0\nE 0\nO 0 -\nU 0\nF script\n";

/// Every kind of line.
const ALL: &[u8] =
    b"kjrn 1 harts 16 steps 1\nC 1\nT 1\nI 15\nO 3 0,2,10,15\nA 0x1008\nB\nF halted\nF limit\nP 15\nA 0x0\nA 0xffffffffffffffff\n";

#[test]
fn reads_and_writes_journals(rt: HostRuntime) -> Result<(), Fail> {
    for text in [JUMP, ALL] {
        match read_journal(rt.alloc(), text) {
            Ok(journal) => {
                let written = write_journal(
                    rt.alloc(),
                    journal.harts,
                    journal.limit,
                    &journal.entries,
                )?;
                assert_eq!(rt; written.as_slice(), text);
            }
            Err(fault) => panic!(rt; "{fault}"),
        }
    }
    Ok(())
}

#[test]
fn names_the_first_bad_line(rt: HostRuntime) -> Result<(), Fail> {
    // Each text with what its fault prints.
    let table: [(&[u8], &str); 12] = [
        (b"", "line 1: no entry"),
        (b"kjrn 1 harts 1 steps 5", "line 1: no entry"),
        (b"kjrn 1 harts 01 steps 5\n", "line 1: no entry"),
        (b"kjrn 1 harts 17 steps 5\n", "line 1: no entry"),
        (b"kjrn 1 harts 1 steps 5\nS 0", "line 2: no entry"),
        (b"kjrn 1 harts 1 steps 5\nS 00\n", "line 2: no entry"),
        (b"kjrn 1 harts 2 steps 5\nS 0\nS 2\n", "line 3: no entry"),
        (b"kjrn 1 harts 2 steps 5\nO 0 1,0\n", "line 2: no entry"),
        (b"kjrn 1 harts 2 steps 5\nU 16\n", "line 2: no entry"),
        (b"kjrn 1 harts 2 steps 5\nA 0X8\n", "line 2: no entry"),
        (b"kjrn 1 harts 2 steps 5\nA 0x08\n", "line 2: no entry"),
        (b"kjrn 1 harts 2 steps 5\nS 0\nF scri\n", "line 3: no entry"),
    ];
    for (text, want) in table {
        let printed = match read_journal(rt.alloc(), text) {
            Ok(_) => String::new(rt.alloc()),
            Err(fault) => format!(in rt.alloc(); "{fault}")?,
        };
        assert_eq!(rt; printed.as_str(), want);
    }
    let (what, size) = (What::Entries, 8_000_001);
    let printed = format!(in rt.alloc(); "{}", JournalFault::TooLarge { what, size })?;
    assert_eq!(rt; printed.as_str(), "Entries 8000001: too large");
    Ok(())
}
