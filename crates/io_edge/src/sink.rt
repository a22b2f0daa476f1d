ghost use Rattle.std.specs.Prelude.{◌≡◌, ℕ, ◌≤◌, ◌++◌, List, length, Option, Some, OnOk, OnErr, codes};
ghost use Rattle.std.specs.Option.{option_map};
ghost use Rattle.io_edge.specs.Edge.{HasRisen, HasTakenPart};

use mach_base::OutOfMemory;
use std::error::Error;
use std::fmt;

/// The outside failed while it took bytes; the sink's count of faults has risen.
#[derive(Clone, Copy, Debug, PartialEq, Eq)]
pub struct Failed;

impl fmt::Display for Failed {
    ghost output = { λ _. Some (codes "writing failed") };

    fn fmt<W: fmt::Write>(&self, f: &mut fmt::Formatter<W>) -> fmt::Result {
        f.write_str("writing failed")
    }
}

impl Error for Failed {}

/// What takes bytes in order.
pub trait Sink {
    /// The bytes taken so far, where the sink tells them.
    ghost taken: { Self → Option (List ℕ) };

    /// How often the outside has failed; it never falls.
    ghost faults: { Self → ℕ };

    /// How many bytes the next put may have.
    ghost spare: { Self → ℕ };

    /// Makes room for a put of at most `size` bytes, and changes nothing else.
    fn reserve(&mut self, size: usize) -> Result<(), OutOfMemory>
        ensures room { OnOk result (size ≤ spare self.new) }
        ensures less { OnErr result (spare self.new ≡ spare self.old) }
        ensures taken { taken self.new ≡ taken self.old }
        ensures count { faults self.new ≡ faults self.old };

    /// Takes all the bytes, and no memory. `Failed` comes only where the count of faults has risen, and then some
    /// first part of the bytes was taken.
    fn put(&mut self, bytes: &[u8]) -> Result<(), Failed>
        requires { length bytes.now ≤ spare self.old }
        ensures taken { OnOk result (taken self.new ≡ option_map (λ before. before ++ bytes.now) (taken self.old)) }
        ensures part { OnErr result (HasTakenPart (taken self.old) bytes.now (taken self.new)) }
        ensures count { faults self.old ≤ faults self.new }
        ensures failed { OnErr result (HasRisen (faults self.old) (faults self.new)) };
}
