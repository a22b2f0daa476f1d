ghost use Rattle.std.specs.Prelude.{◌≡◌, ◌≤◌, ◌^◌, Option, None, Some, OnOk, OnErr, IfOk, IsErrOf};
ghost use Rattle.io_edge.specs.Edge.{FileMap, IsTold, HasRisen, HasRoom, KeepsRoom, KeepsOtherRoom, KeepsOthers};
ghost use Rattle.io_edge.specs.Memory.{counted};

use crate::files::{read_file, write_file};
use crate::{Failed, ReadFail, Shelf};
use mach_base::OutOfMemory;
use std::alloc::Global;
use std::io;
use std::marker::Model;
use std::rt::Files;

/// The most bytes that a read takes of one file.
const FILE_LIMIT: u64 = 268_435_456;

/// The files of the system, by path from the current folder. It tells nothing of their bytes. A file of more than
/// 268,435,456 bytes is a fault, and is not read whole. A write of a regular file leaves the file that was there until
/// the new one is whole; anything else, as a device, a pipe or a link, is written in place.
#[derive(Drop)]
pub struct DirShelf<'a, R: Files> {
    rt: &'a R,
    faults: u64,
}

impl<'a, R: Files> Model for DirShelf<'a, R> {
    ghost use Rattle.std.specs.Prelude.{ℕ};

    ghost Value = { ℕ };

    ghost view = { λ s. s.faults };
}

impl<'a, R: Files> DirShelf<'a, R> {
    /// The files that this runtime reaches, with no fault so far.
    pub fn new(rt: &'a R) -> DirShelf<'a, R>
        ensures { result ≡ 0 }
    {
        DirShelf { rt, faults: 0 }
    }
}

impl<'a, R: Files> Shelf for DirShelf<'a, R> {
    ghost contents = { λ _. None };

    ghost faults = { λ s. s };

    ghost room = { λ _ _. Some (2 ^ 64) };

    fn read(&mut self, alloc: Global, name: &str) -> Result<Vec<u8>, ReadFail>
        ensures done { OnOk result (self.new ≡ self.old) }
        ensures counted { IsErrOf result ReadFail.Failed → self.new ≡ counted self.old }
        ensures unchanged { IsErrOf result ReadFail.OutOfMemory → self.new ≡ self.old }

        // What every shelf owes; of the bytes it tells nothing.
        ensures bytes { IfOk result (λ bytes. IsTold None name.now bytes.items) }
        ensures kept { ◌≡◌ {A = Option FileMap} None None }
        ensures room_kept { KeepsRoom (λ _. Some (2 ^ 64)) (λ _. Some (2 ^ 64)) }
        ensures count { self.old ≤ self.new }
        ensures failed { IsErrOf result ReadFail.Failed → HasRisen self.old self.new }
        ensures memory { IsErrOf result ReadFail.OutOfMemory → self.new ≡ self.old }
    {
        match read_file(self.rt, alloc, name, FILE_LIMIT) {
            Ok(bytes) => Ok(bytes),
            Err(error) if error.kind() == io::ErrorKind::OutOfMemory => Err(ReadFail::OutOfMemory),
            Err(_) => {
                self.faults = self.faults.saturating_add(1);
                Err(ReadFail::Failed)
            }
        }
    }

    fn reserve(&mut self, _name: &str, _size: usize) -> Result<(), OutOfMemory>
        ensures unchanged { self.new ≡ self.old }

        // What every shelf owes.
        ensures room_made { OnOk result (HasRoom (Some (2 ^ 64)) _size) }
        ensures room_kept { KeepsRoom (λ _. Some (2 ^ 64)) (λ _. Some (2 ^ 64)) }
        ensures kept { ◌≡◌ {A = Option FileMap} None None }
        ensures count { self.new ≡ self.old }
    {
        Ok(())
    }

    fn write(&mut self, name: &str, bytes: &[u8]) -> Result<(), Failed>
        ensures done { OnOk result (self.new ≡ self.old) }
        ensures counted { OnErr result (self.new ≡ counted self.old) }

        // What every shelf owes; of the bytes it tells nothing.
        ensures put { OnOk result (◌≡◌ {A = Option FileMap} None None) }
        ensures others { OnErr result (KeepsOthers name.now None None) }
        ensures room_kept { KeepsOtherRoom name.now (λ _. Some (2 ^ 64)) (λ _. Some (2 ^ 64)) }
        ensures count { self.old ≤ self.new }
        ensures failed { OnErr result (HasRisen self.old self.new) }
    {
        match write_file(self.rt, name, bytes) {
            Ok(()) => Ok(()),
            Err(_) => {
                self.faults = self.faults.saturating_add(1);
                Err(Failed)
            }
        }
    }
}

#[cfg(test)]
mod tests {
    use super::*;
    use std::test::Fail;
    use std::{fs, process};

    #[test]
    fn writes_and_reads_a_file_and_counts_one_that_is_not_there(
        rt: HostRuntime,
    ) -> Result<(), Fail> {
        let process = process::id(rt.process());
        let path = format!(in rt.alloc(); "/tmp/kdbsim-io_edge-{process}")?;
        let mut shelf = DirShelf::new(&rt);
        for bytes in [b"some bytes".as_slice(), b"others"] {
            shelf.reserve(path.as_str(), bytes.len())?;
            assert_eq!(rt; shelf.write(path.as_str(), bytes), Ok(()));
            assert_eq!(rt; shelf.read(rt.alloc(), path.as_str())?.as_slice(), bytes);
        }
        fs::remove_file(&rt, path.as_str())?;
        assert_eq!(rt; shelf.faults, 0);
        assert_eq!(rt;
            shelf.read(rt.alloc(), path.as_str()).err(),
            Some(ReadFail::Failed)
        );
        assert_eq!(rt; shelf.write("/", b"x"), Err(Failed));
        assert_eq!(rt; shelf.faults, 2);
        Ok(())
    }
}
