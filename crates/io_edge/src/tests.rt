use super::*;
use mach_base::Text;
use std::alloc::{AllocError, Global};
use std::test::Fail;

fn named(alloc: Global, name: &[u8], bytes: &[u8]) -> Result<Named, AllocError> {
    Ok(Named {
        name: Text::from_vec(name.to_vec(alloc)?),
        bytes: Text::from_vec(bytes.to_vec(alloc)?),
    })
}

/// Two files, and a second one of the first's name.
fn files(alloc: Global) -> Result<Vec<Named>, AllocError> {
    let mut files = Vec::new(alloc);
    files.push(named(alloc, b"a", b"one")?)?;
    files.push(named(alloc, b"b", b"")?)?;
    files.push(named(alloc, b"a", b"two")?)?;
    Ok(files)
}

#[test]
fn mem_shelf_fails_at_its_calls_and_at_missing_names(rt: HostRuntime) -> Result<(), Fail> {
    let failing = [1, 4].to_vec(rt.alloc())?;
    let mut shelf = MemShelf::new(rt.alloc(), files(rt.alloc())?, failing);
    let table: [(&str, Option<&[u8]>); 6] = [
        ("a", Some(b"one")),
        ("a", None),
        ("b", Some(b"")),
        ("c", None),
        ("c", None),
        ("a", Some(b"one")),
    ];
    for (name, want) in table {
        match (shelf.read(rt.alloc(), name), want) {
            (Ok(bytes), Some(want)) => assert_eq!(rt; bytes.as_slice(), want),
            (Err(fail), None) => assert_eq!(rt; fail, ReadFail::Failed),
            _ => panic!(rt; "another answer at {name}"),
        }
    }
    assert_eq!(rt; shelf.bytes("b"), Some(b"".as_slice()));
    assert_eq!(rt; shelf.bytes("c"), None);
    Ok(())
}

#[test]
fn mem_shelf_writes_where_no_call_is_to_fail(rt: HostRuntime) -> Result<(), Fail> {
    let failing = [1].to_vec(rt.alloc())?;
    let mut shelf = MemShelf::new(rt.alloc(), files(rt.alloc())?, failing);
    let table: [(&str, &[u8], bool, Option<&[u8]>); 5] = [
        ("a", b"three", true, Some(b"three")),
        ("d", b"new", false, None),
        ("d", b"new", true, Some(b"new")),
        ("a", b"", true, Some(b"")),
        ("d", b"newer", true, Some(b"newer")),
    ];
    for (name, bytes, ok, want) in table {
        shelf.reserve(name, bytes.len())?;
        assert_eq!(rt; shelf.write(name, bytes).is_ok(), ok);
        assert_eq!(rt; shelf.bytes(name), want);
    }
    assert_eq!(rt; shelf.bytes("b"), Some(b"".as_slice()));
    assert_eq!(rt;
        shelf.read(rt.alloc(), "d")?.as_slice(),
        b"newer".as_slice()
    );
    Ok(())
}

#[test]
fn sure_shelf_reads_a_missing_name_as_no_bytes(rt: HostRuntime) -> Result<(), Fail> {
    let mut shelf = SureShelf::new(rt.alloc(), files(rt.alloc())?);
    for (name, want) in [("a", b"one".as_slice()), ("b", b""), ("c", b"")] {
        assert_eq!(rt; shelf.read(rt.alloc(), name)?.as_slice(), want);
    }
    shelf.reserve("c", 5)?;
    assert_eq!(rt; shelf.bytes("c"), None);
    assert_eq!(rt; shelf.write("c", b"three"), Ok(()));
    assert_eq!(rt; shelf.bytes("c"), Some(b"three".as_slice()));
    assert_eq!(rt; shelf.bytes("a"), Some(b"one".as_slice()));
    Ok(())
}

#[test]
fn mem_sink_takes_a_part_where_it_fails(rt: HostRuntime) -> Result<(), Fail> {
    let failing = [1, 2].to_vec(rt.alloc())?;
    let mut sink = MemSink::new(rt.alloc(), failing, 2);
    let table: [(&[u8], bool, &[u8]); 4] = [
        (b"abc", true, b"abc"),
        (b"defg", false, b"abcde"),
        (b"h", false, b"abcdeh"),
        (b"ij", true, b"abcdehij"),
    ];
    for (bytes, ok, want) in table {
        sink.reserve(bytes.len())?;
        assert_eq!(rt; sink.put(bytes).is_ok(), ok);
        assert_eq!(rt; sink.bytes(), want);
    }
    Ok(())
}

#[test]
fn sure_sink_takes_all(rt: HostRuntime) -> Result<(), Fail> {
    let mut sink = SureSink::new(rt.alloc());
    for (bytes, want) in [
        (b"abc".as_slice(), b"abc".as_slice()),
        (b"", b"abc"),
        (b"d", b"abcd"),
    ] {
        sink.reserve(bytes.len())?;
        assert_eq!(rt; sink.put(bytes), Ok(()));
        assert_eq!(rt; sink.bytes(), want);
    }
    Ok(())
}
