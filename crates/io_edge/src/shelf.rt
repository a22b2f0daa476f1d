ghost use Rattle.std.specs.Prelude.{◌≡◌, ℕ, ◌≤◌, List, length, Option, Some, IfOk, OnOk, OnErr, IsErrOf};
ghost use Rattle.std.specs.Option.{option_map};
ghost use Rattle.std.specs.FinMap.{insert};
ghost use Rattle.io_edge.specs.Edge.{FileMap, IsTold, HasRisen, HasRoom, KeepsRoom, KeepsOtherRoom, KeepsOthers, read_fail_text};
ghost use Rattle.io_edge.specs.declared.shelf.ReadFail.TheVariants.{OutOfMemory};

use crate::Failed;
use mach_base::OutOfMemory;
use std::alloc::{AllocError, Global};
use std::error::Error;
use std::fmt;

/// Why a byte string was not read.
#[derive(Clone, Copy, Debug, PartialEq, Eq)]
pub enum ReadFail {
    /// The outside failed; the shelf's count of faults has risen.
    Failed,
    /// There was no memory for the bytes.
    OutOfMemory,
}

impl fmt::Display for ReadFail {
    ghost output = { λ fail. Some (read_fail_text fail) };

    fn fmt<W: fmt::Write>(&self, f: &mut fmt::Formatter<W>) -> fmt::Result {
        match self {
            ReadFail::Failed => f.write_str("reading failed"),
            ReadFail::OutOfMemory => f.write_str("out of memory"),
        }
    }
}

impl Error for ReadFail {}

impl From<AllocError> for ReadFail {
    ghost from_gives = { λ _ e. e ≡ OutOfMemory };

    fn from(_error: AllocError) -> ReadFail {
        ReadFail::OutOfMemory
    }
}

/// Named byte strings.
pub trait Shelf {
    /// The bytes by name, where the shelf tells them.
    ghost contents: { Self → Option FileMap };

    /// How often the outside has failed; it never falls.
    ghost faults: { Self → ℕ };

    /// The most bytes of a write under a name for which there is room; none where no room was made.
    ghost room: { Self → List ℕ → Option ℕ };

    /// Reads a whole byte string. Where the shelf tells its bytes, these are the ones of that name, or none where
    /// that name isn't there. It changes no bytes. `Failed` comes only where the count of faults has risen, and out of
    /// memory leaves the count.
    fn read(&mut self, alloc: Global, name: &str) -> Result<Vec<u8>, ReadFail>
        ensures bytes { IfOk result (λ bytes. IsTold (contents self.old) name.now bytes.items) }
        ensures kept { contents self.new ≡ contents self.old }
        ensures room_kept { KeepsRoom (room self.old) (room self.new) }
        ensures count { faults self.old ≤ faults self.new }
        ensures failed { IsErrOf result ReadFail.Failed → HasRisen (faults self.old) (faults self.new) }
        ensures memory { IsErrOf result ReadFail.OutOfMemory → faults self.new ≡ faults self.old };

    /// Makes room for one write of at most `size` bytes under a name, beside the room made for other names. It changes
    /// no bytes and no count.
    fn reserve(&mut self, name: &str, size: usize) -> Result<(), OutOfMemory>
        ensures room_made { OnOk result (HasRoom (room self.new name.now) size) }
        ensures room_kept { KeepsRoom (room self.old) (room self.new) }
        ensures kept { contents self.new ≡ contents self.old }
        ensures count { faults self.new ≡ faults self.old };

    /// Puts the bytes under a name in place of those that are there, and leaves every other name. It takes no memory.
    /// `Failed` comes only where the count of faults has risen, and then nothing is known of that name.
    fn write(&mut self, name: &str, bytes: &[u8]) -> Result<(), Failed>
        requires { HasRoom (room self.old name.now) (length bytes.now) }
        ensures put { OnOk result (contents self.new ≡ option_map (λ files. insert files name.now bytes.now) (contents self.old)) }
        ensures others { OnErr result (KeepsOthers name.now (contents self.old) (contents self.new)) }
        ensures room_kept { KeepsOtherRoom name.now (room self.old) (room self.new) }
        ensures count { faults self.old ≤ faults self.new }
        ensures failed { OnErr result (HasRisen (faults self.old) (faults self.new)) };
}
