ghost use Rattle.std.specs.Prelude.{◌≡◌};

use std::marker::Model;

/// A counter of calls from 0, and the numbers of the calls that are to fail. The counter stays at 2^64 - 1.
#[derive(Debug, Drop)]
pub struct CallCounter {
    made: u64,
    failing: Vec<u64>,
}

impl Model for CallCounter {
    ghost use Rattle.io_edge.specs.Memory.{Calls};

    ghost Value = { Calls };

    ghost view = { λ c. record { made = c.made; failing = c.failing.items } };
}

impl CallCounter {
    ghost use Rattle.io_edge.specs.Memory.{next_fails, after_call};

    /// No call was made.
    pub fn new(failing: Vec<u64>) -> CallCounter
        ensures made { result.made ≡ 0 }
        ensures failing { result.failing ≡ failing.items }
    {
        CallCounter { made: 0, failing }
    }

    /// Whether the next call is to fail.
    pub fn next_fails(&self) -> bool
        ensures { result ≡ next_fails self.now }
    {
        self.failing.contains(&self.made)
    }

    /// Counts one more call, and says whether it is to fail.
    pub fn count_one(&mut self) -> bool
        ensures fails { result ≡ next_fails self.old }
        ensures counted { self.new ≡ after_call self.old }
    {
        let fails = self.next_fails();
        self.made = self.made.saturating_add(1);
        fails
    }
}
