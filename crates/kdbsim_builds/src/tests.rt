use super::*;
use elf_img::ElfWhy;
use io_edge::{MemShelf, Named};
use kdbsim_files::Status;
use mach_base::Text;
use std::alloc::{AllocError, Global};
use std::test::Fail;

// An executable of one segment of text: li a0, 5; ebreak; ecall.
const ELF: [u8; 132] = [
    0x7f, 0x45, 0x4c, 0x46, 0x02, 0x01, 0x01, 0x00, 0x00, 0x00, 0x00, 0x00, 0x00, 0x00, 0x00, 0x00,
    0x02, 0x00, 0xf3, 0x00, 0x01, 0x00, 0x00, 0x00, 0x00, 0x10, 0x00, 0x00, 0x00, 0x00, 0x00, 0x00,
    0x40, 0x00, 0x00, 0x00, 0x00, 0x00, 0x00, 0x00, 0x00, 0x00, 0x00, 0x00, 0x00, 0x00, 0x00, 0x00,
    0x00, 0x00, 0x00, 0x00, 0x40, 0x00, 0x38, 0x00, 0x01, 0x00, 0x00, 0x00, 0x00, 0x00, 0x00, 0x00,
    0x01, 0x00, 0x00, 0x00, 0x05, 0x00, 0x00, 0x00, 0x78, 0x00, 0x00, 0x00, 0x00, 0x00, 0x00, 0x00,
    0x00, 0x10, 0x00, 0x00, 0x00, 0x00, 0x00, 0x00, 0x00, 0x10, 0x00, 0x00, 0x00, 0x00, 0x00, 0x00,
    0x0c, 0x00, 0x00, 0x00, 0x00, 0x00, 0x00, 0x00, 0x0c, 0x00, 0x00, 0x00, 0x00, 0x00, 0x00, 0x00,
    0x08, 0x00, 0x00, 0x00, 0x00, 0x00, 0x00, 0x00, 0x13, 0x05, 0x50, 0x00, 0x73, 0x00, 0x10, 0x00,
    0x73, 0x00, 0x00, 0x00,
];

/// The shelf of one file `f`, of which the call of this number fails, and an older map.
fn shelf_of(alloc: Global, bytes: &[u8], failing: u64) -> Result<MemShelf, AllocError> {
    let mut files = Vec::new(alloc);
    for (name, bytes) in [("f", bytes), ("m", b"old")] {
        files.push(Named {
            name: Text::from_vec(name.as_bytes().to_vec(alloc)?),
            bytes: Text::from_vec(bytes.to_vec(alloc)?),
        })?;
    }
    Ok(MemShelf::new(alloc, files, [failing].to_vec(alloc)?))
}

/// The answer of `elf` to these bytes, whether an image was written, and how many bytes the map has then.
fn answer(
    alloc: Global,
    bytes: &[u8],
    failing: u64,
) -> Result<(Status, bool, Option<usize>), AllocError> {
    let mut shelf = shelf_of(alloc, bytes, failing)?;
    let status = convert(alloc, &mut shelf, "f", "i", "m");
    let length = shelf.bytes("m").map(|map| map.len());
    Ok((status, shelf.bytes("i").is_some(), length))
}

#[test]
fn executables_become_an_image_and_a_map(rt: HostRuntime) -> Result<(), Fail> {
    let alloc = rt.alloc();
    let why = ElfWhy::Bounds;
    assert!(rt; answer(alloc, &ELF, 9)? == (Status::Made, true, Some(0)));
    assert!(rt; answer(alloc, &ELF, 2)? == (Status::WriteFault, true, Some(3)));
    assert!(rt; answer(alloc, &ELF, 1)? == (Status::WriteFault, false, Some(3)));
    assert!(rt; answer(alloc, &ELF[..130], 9)? == (Status::BadElf { why }, false, Some(3)));
    Ok(())
}

#[test]
fn a_source_becomes_an_image(rt: HostRuntime) -> Result<(), Fail> {
    let alloc = rt.alloc();
    let source = b"kasm 1\ntext 0x1000 8\nhere:\njal zero, here\n";
    let mut shelf = shelf_of(alloc, source, 9)?;
    assert_eq!(rt; assemble(alloc, &mut shelf, "f", "i"), Status::Made);
    assert!(rt; shelf.bytes("i").is_some());
    let mut shelf = shelf_of(alloc, source, 1)?;
    assert_eq!(rt; assemble(alloc, &mut shelf, "f", "i"), Status::WriteFault);
    assert!(rt; shelf.bytes("i").is_none());
    Ok(())
}
