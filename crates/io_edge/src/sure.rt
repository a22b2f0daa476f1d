ghost use Rattle.std.specs.Prelude.{◌≡◌, [], Some};
ghost use Rattle.std.specs.Option.{option_copied};
ghost use Rattle.std.specs.FinMap.{empty, get};

use crate::mem_sink::append;
use crate::store::Store;
use crate::{Failed, Named, ReadFail, Shelf, Sink};
use mach_base::OutOfMemory;
use std::alloc::Global;
use std::marker::Model;

/// A shelf in memory that doesn't fail. A name that isn't there reads as no bytes.
#[derive(Debug, Drop)]
pub struct SureShelf {
    store: Store,
}

impl Model for SureShelf {
    ghost use Rattle.io_edge.specs.Memory.{StoreState, coded_store};

    ghost Value = { StoreState };

    ghost coded = { coded_store };

    ghost view = { λ s. s.store };
}

impl SureShelf {
    ghost use Rattle.io_edge.specs.Memory.{file_map};

    /// A shelf of these files. Of several files of one name the first counts. It takes no memory.
    pub fn new(alloc: Global, files: Vec<Named>) -> SureShelf
        ensures files { result.files ≡ file_map files.items }
        ensures rooms { result.rooms ≡ empty }
    {
        SureShelf {
            store: Store::new(alloc, files),
        }
    }

    /// The bytes of a name; None exactly where it isn't there.
    pub fn bytes(&self, name: &str) -> Option<&[u8]>
        ensures { option_copied result ≡ get self.now.files name.now }
    {
        self.store.bytes(name.as_bytes())
    }
}

impl Shelf for SureShelf {
    ghost contents = { λ s. Some s.files };

    ghost faults = { λ _. 0 };

    ghost room = { λ s. get s.rooms };

    fn read(&mut self, alloc: Global, name: &str) -> Result<Vec<u8>, ReadFail> {
        let bytes = self.store.bytes(name.as_bytes()).unwrap_or(&[]);
        Ok(Vec::from_slice(alloc, bytes)?)
    }

    fn reserve(&mut self, name: &str, size: usize) -> Result<(), OutOfMemory> {
        self.store.reserve(name.as_bytes(), size)
    }

    fn write(&mut self, name: &str, bytes: &[u8]) -> Result<(), Failed> {
        self.store.write(name.as_bytes(), bytes);
        Ok(())
    }
}

/// A sink in memory that doesn't fail.
#[derive(Debug, Drop)]
pub struct SureSink {
    taken: Vec<u8>,
}

impl Model for SureSink {
    ghost use Rattle.std.specs.Prelude.{◌-◌, vec_len, vec_capacity};
    ghost use Rattle.io_edge.specs.Memory.{SureSinkState};

    ghost Value = { SureSinkState };

    ghost view = { λ s. record { taken = s.taken.items; spare = vec_capacity s.taken - vec_len s.taken } };
}

impl SureSink {
    /// A sink that has taken nothing. It takes no memory.
    pub fn new(alloc: Global) -> SureSink
        ensures { result.taken ≡ [] }
    {
        SureSink {
            taken: Vec::new(alloc),
        }
    }

    /// The bytes taken so far.
    pub fn bytes(&self) -> &[u8]
        ensures { result.now ≡ self.now.taken }
    {
        self.taken.as_slice()
    }
}

impl Sink for SureSink {
    ghost taken = { λ s. Some s.taken };

    ghost faults = { λ _. 0 };

    ghost spare = { λ s. s.spare };

    fn reserve(&mut self, size: usize) -> Result<(), OutOfMemory> {
        self.taken.reserve(size)?;
        Ok(())
    }

    fn put(&mut self, bytes: &[u8]) -> Result<(), Failed> {
        append(&mut self.taken, bytes);
        Ok(())
    }
}
