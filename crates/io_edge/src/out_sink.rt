ghost use Rattle.std.specs.Prelude.{◌≡◌, ℕ, ◌≤◌, ◌^◌, List, Option, None, OnOk, OnErr};
ghost use Rattle.io_edge.specs.Edge.{HasRisen, HasTakenPart};
ghost use Rattle.io_edge.specs.Memory.{counted};

use crate::{Failed, Sink};
use mach_base::OutOfMemory;
use std::marker::Model;

/// Standard output. It tells nothing of the bytes. It writes in as many pieces as it takes; a write that fails, or
/// that takes nothing of a piece that isn't empty, is a fault.
#[derive(Drop)]
pub struct OutSink<'a, R: Print> {
    rt: &'a R,
    faults: u64,
}

impl<'a, R: Print> Model for OutSink<'a, R> {
    ghost use Rattle.std.specs.Prelude.{ℕ};

    ghost Value = { ℕ };

    ghost view = { λ s. s.faults };
}

impl<'a, R: Print> OutSink<'a, R> {
    /// The output that this runtime reaches, with no fault so far.
    pub fn new(rt: &'a R) -> OutSink<'a, R>
        ensures { result ≡ 0 }
    {
        OutSink { rt, faults: 0 }
    }
}

impl<'a, R: Print> Sink for OutSink<'a, R> {
    ghost taken = { λ _. None };

    ghost faults = { λ s. s };

    ghost spare = { λ _. 2 ^ 64 };

    fn reserve(&mut self, _size: usize) -> Result<(), OutOfMemory> {
        Ok(())
    }

    fn put(&mut self, bytes: &[u8]) -> Result<(), Failed>
        ensures done { OnOk result (self.new ≡ self.old) }
        ensures counted { OnErr result (self.new ≡ counted self.old) }

        // What every sink owes; of the bytes it tells nothing.
        ensures taken { OnOk result (◌≡◌ {A = Option (List ℕ)} None None) }
        ensures part { OnErr result (HasTakenPart None bytes.now None) }
        ensures count { self.old ≤ self.new }
        ensures failed { OnErr result (HasRisen self.old self.new) }
    {
        match self.rt.write_all(bytes) {
            Ok(()) => Ok(()),
            Err(_) => {
                self.faults = self.faults.saturating_add(1);
                Err(Failed)
            }
        }
    }
}

#[cfg(test)]
mod tests {
    use super::*;
    use std::test::Fail;
    use std::{fmt, io};

    /// Output that takes no byte.
    struct Stuck;

    impl Print for Stuck {
        fn print<D: fmt::Display + Drop>(&self, _value: D) -> io::Result<()> {
            self.write_all(b"")
        }

        fn println<D: fmt::Display + Drop>(&self, _value: D) -> io::Result<()> {
            self.write_all(b"")
        }

        fn write_all(&self, bytes: &[u8]) -> io::Result<()> {
            if bytes.is_empty() {
                return Ok(());
            }
            Err(io::Error::from(io::ErrorKind::WriteZero))
        }
    }

    #[test]
    fn puts_and_counts_bytes_that_are_not_taken(rt: HostRuntime) -> Result<(), Fail> {
        let mut sink = OutSink::new(&rt);
        sink.reserve(1)?;
        assert_eq!(rt; sink.put(b"\n"), Ok(()));
        assert_eq!(rt; sink.faults, 0);
        let mut stuck = OutSink::new(&Stuck);
        assert_eq!(rt; stuck.put(b""), Ok(()));
        assert_eq!(rt; stuck.put(b"x"), Err(Failed));
        assert_eq!(rt; stuck.faults, 1);
        Ok(())
    }
}
