use super::*;
use elf_img::ElfWhy;
use img_text::Why;
use io_edge::{MemShelf, Named};
use mach_base::{Ending, Text, What};
use std::alloc::{AllocError, Global};
use std::test::Fail;

/// A shelf of one file under the name `f`, of which the call with this number fails.
fn shelf_of(alloc: Global, bytes: &[u8], failing: u64) -> Result<MemShelf, AllocError> {
    let mut files = Vec::new(alloc);
    files.push(Named {
        name: Text::from_vec(b"f".to_vec(alloc)?),
        bytes: Text::from_vec(bytes.to_vec(alloc)?),
    })?;
    Ok(MemShelf::new(alloc, files, [failing].to_vec(alloc)?))
}

/// The refusal of a file of these bytes, if there is one.
fn refusal(
    alloc: Global,
    file: File,
    bytes: &[u8],
    failing: u64,
) -> Result<Option<Status>, AllocError> {
    let mut shelf = shelf_of(alloc, bytes, failing)?;
    let shelf = &mut shelf;
    Ok(match file {
        File::Image => image_input(alloc, shelf, "f").err(),
        File::Map => map_input(alloc, shelf, "f").err(),
        File::Script => script_input(alloc, shelf, "f").err(),
        File::Plan => plan_input(alloc, shelf, "f", 2).err(),
        File::Journal => journal_input(alloc, shelf, "f").err(),
        File::Source => source_input(alloc, shelf, "f").err(),
        File::Elf => elf_input(alloc, shelf, "f").err(),
    })
}

const IMAGE: &[u8] = b"kimg 1\ntext 0x1000 8\n";

const JOURNAL: &[u8] = b"kjrn 1 harts 2 steps 10\nS 0\n";

const SOURCE: &[u8] = b"kasm 1\ntext 0x1000 8\nhere:\njal zero, here\n";

#[test]
fn files_are_read_or_refused(rt: HostRuntime) -> Result<(), Fail> {
    let why = Why::NoText;
    for (file, bytes, want) in [
        (File::Image, IMAGE, None),
        (
            File::Image,
            b"kimg 1\n",
            Some(Status::BadImage { line: 2, why }),
        ),
        (File::Map, b"0000000000001000 T start\n", None),
        (File::Map, b"1000 T\n", Some(Status::BadMap { line: 1 })),
        (File::Script, b"go\n", None),
        (
            File::Script,
            b"\xff\n\x01",
            Some(Status::BadScript { line: 2 }),
        ),
        (File::Plan, b"kplan 1\n0 1 x3\n", None),
        (
            File::Plan,
            b"kplan 1\n2\n",
            Some(Status::BadPlan { line: 2 }),
        ),
        (File::Journal, JOURNAL, None),
        (
            File::Journal,
            b"kjrn 1 harts 2 steps 010\n",
            Some(Status::BadJournal { line: 1 }),
        ),
        (File::Source, SOURCE, None),
        (
            File::Source,
            b"kasm 1\ntext 0x1000 8\nhere:\naddi a0, zero, 4096\n",
            Some(Status::BadSource { line: 4 }),
        ),
        (
            File::Elf,
            b"\x7fELF",
            Some(Status::BadElf { why: ElfWhy::Short }),
        ),
    ] {
        assert!(rt; refusal(rt.alloc(), file, bytes, 1)? == want);
        assert!(rt; refusal(rt.alloc(), file, bytes, 0)? == Some(Status::ReadFault(file)));
    }
    Ok(())
}

#[test]
fn files_have_their_limits(rt: HostRuntime) -> Result<(), Fail> {
    let script = vec![in rt.alloc(); b'\n'; 1_048_577]?;
    let what = What::ScriptBytes;
    let size = 1_048_577;
    let answer = refusal(rt.alloc(), File::Script, script.as_slice(), 1)?;
    assert!(rt; answer == Some(Status::TooLarge { what, size }));
    Ok(())
}

#[test]
fn statuses_have_their_lines(rt: HostRuntime) -> Result<(), Fail> {
    let why = Why::NoText;
    let what = What::Lines;
    for (status, code, line) in [
        (Status::Done(Ending::AllHalted), 0, ""),
        (Status::Made, 0, ""),
        (Status::Usage, 2, "kdbsim: usage"),
        (Status::ReadFault(File::Elf), 3, "kdbsim: cannot read elf"),
        (Status::ReadFault(File::Plan), 3, "kdbsim: cannot read plan"),
        (
            Status::BadImage { line: 2, why },
            4,
            "kdbsim: bad image, line 2: notext",
        ),
        (Status::BadMap { line: 3 }, 5, "kdbsim: bad map, line 3"),
        (
            Status::BadScript { line: 1 },
            6,
            "kdbsim: bad script, line 1",
        ),
        (Status::BadPlan { line: 9 }, 7, "kdbsim: bad plan, line 9"),
        (
            Status::BadJournal { line: 1 },
            8,
            "kdbsim: bad journal, line 1",
        ),
        (
            Status::TooLarge { what, size: 4097 },
            9,
            "kdbsim: too large: lines 4097",
        ),
        (Status::BadStep { index: 0 }, 10, "kdbsim: bad step 0"),
        (Status::WriteFault, 11, "kdbsim: cannot write"),
        (Status::OutOfMemory, 12, "kdbsim: out of memory"),
        (
            Status::BadSource { line: 4 },
            14,
            "kdbsim: bad source, line 4",
        ),
        (
            Status::BadElf {
                why: ElfWhy::HeaderSize,
            },
            15,
            "kdbsim: bad elf, headersize",
        ),
    ] {
        assert_eq!(rt; status_code(&status), code);
        let told = status_line(rt.alloc(), &status)?;
        assert_eq!(rt; told.as_bytes(), line.as_bytes());
    }
    Ok(())
}
