//! What a worker does where its hart can't go on.
ghost use Rattle.std.specs.Prelude.{◌≡◌, ◌+◌, ◌<◌, ◌^◌};

use mach_base::Hart;

/// A pause of a worker, which names its own hart. It has no answer and no meaning.
pub trait Pause {
    fn pause(&mut self, h: Hart);
}

/// A pause that takes no time, and counts the calls on its own copy.
#[derive(Clone, Copy, Debug, PartialEq, Eq)]
pub struct Counted {
    calls: u64,
}

impl Counted {
    /// No call yet.
    pub fn new() -> Counted
        ensures { result.calls ≡ 0 }
    {
        Counted { calls: 0 }
    }

    /// How often this copy has paused; the count stays at the largest number.
    pub fn calls(&self) -> u64
        ensures { result ≡ self.now.calls }
    {
        self.calls
    }
}

impl Pause for Counted {
    fn pause(&mut self, _h: Hart)
        ensures { self.old.calls + 1 < 2 ^ 64 → self.new.calls ≡ self.old.calls + 1 }
    {
        self.calls = self.calls.saturating_add(1);
    }
}
