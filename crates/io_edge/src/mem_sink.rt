ghost use Rattle.std.specs.Prelude.{◌≡◌, ◌≤◌, ◌+◌, [], ◌++◌, length, Some, OnOk, OnErr, is_err, vec_len, vec_capacity};
ghost use Rattle.io_edge.specs.Edge.{HasRisen, HasTakenPart};
ghost use Rattle.io_edge.specs.Memory.{next_fails, after_call, failed_calls, after_put};

use crate::calls::CallCounter;
use crate::{Failed, Sink};
use mach_base::OutOfMemory;
use std::alloc::Global;
use std::marker::Model;

/// A sink in memory. The calls of `put` are numbered from 0; those of given numbers fail, and take only a first part
/// of their bytes.
#[derive(Debug, Drop)]
pub struct MemSink {
    taken: Vec<u8>,
    calls: CallCounter,
    part: usize,
}

impl Model for MemSink {
    ghost use Rattle.std.specs.Prelude.{◌-◌, vec_len, vec_capacity};
    ghost use Rattle.io_edge.specs.Memory.{MemSinkState};

    ghost Value = { MemSinkState };

    ghost view = { λ s. record { taken = s.taken.items; calls = s.calls; part = s.part; spare = vec_capacity s.taken - vec_len s.taken } };
}

impl MemSink {
    /// A sink that has taken nothing, and of which the calls of `put` with these numbers fail and take their first
    /// `part` bytes, or all where there are fewer. It takes no memory.
    pub fn new(alloc: Global, failing: Vec<u64>, part: usize) -> MemSink
        ensures taken { result.taken ≡ [] }
        ensures made { result.calls.made ≡ 0 }
        ensures failing { result.calls.failing ≡ failing.items }
        ensures part { result.part ≡ part }
    {
        MemSink {
            taken: Vec::new(alloc),
            calls: CallCounter::new(failing),
            part,
        }
    }

    /// The bytes taken so far.
    pub fn bytes(&self) -> &[u8]
        ensures { result.now ≡ self.now.taken }
    {
        self.taken.as_slice()
    }
}

impl Sink for MemSink {
    ghost taken = { λ s. Some s.taken };

    ghost faults = { λ s. failed_calls s.calls };

    ghost spare = { λ s. s.spare };

    fn reserve(&mut self, size: usize) -> Result<(), OutOfMemory>
        ensures calls { self.new.calls ≡ self.old.calls }
        ensures size { self.new.part ≡ self.old.part }

        // What every sink owes.
        ensures room { OnOk result (size ≤ self.new.spare) }
        ensures less { OnErr result (self.new.spare ≡ self.old.spare) }
        ensures taken { self.new.taken ≡ self.old.taken }
        ensures count { failed_calls self.new.calls ≡ failed_calls self.old.calls }
    {
        self.taken.reserve(size)?;
        Ok(())
    }

    fn put(&mut self, bytes: &[u8]) -> Result<(), Failed>
        requires { length bytes.now ≤ self.old.spare }
        ensures fails { is_err result ≡ next_fails self.old.calls }
        ensures calls { self.new.calls ≡ after_call self.old.calls }
        ensures bytes { self.new.taken ≡ after_put self.old bytes.now }
        ensures size { self.new.part ≡ self.old.part }

        // What every sink owes.
        ensures taken { OnOk result (Some self.new.taken ≡ Some (self.old.taken ++ bytes.now)) }
        ensures part { OnErr result (HasTakenPart (Some self.old.taken) bytes.now (Some self.new.taken)) }
        ensures count { failed_calls self.old.calls ≤ failed_calls self.new.calls }
        ensures failed { OnErr result (HasRisen (failed_calls self.old.calls) (failed_calls self.new.calls)) }
    {
        if self.calls.count_one() {
            let part = self.part.min(bytes.len());
            append(&mut self.taken, &bytes[..part]);
            return Err(Failed);
        }
        append(&mut self.taken, bytes);
        Ok(())
    }
}

/// Appends bytes for which there is room.
pub fn append(taken: &mut Vec<u8>, bytes: &[u8])
    requires { vec_len taken.old + length bytes.now ≤ vec_capacity taken.old }
    ensures { taken.new.items ≡ taken.old.items ++ bytes.now }
{
    match taken.extend_from_slice(bytes) {
        Ok(()) => (),
        Err(_) => unreachable!(),
    }
}
