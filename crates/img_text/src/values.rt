//! The numbers of one line.

ghost use Rattle.std.specs.Prelude.{◌≡◌, ◌+◌, ◌<◌, ◌≤◌, List, ℕ, [], ◌∷◌, ◌++◌, length, take};

use std::marker::Model;

/// Up to eight numbers in order.
#[derive(Drop)]
pub struct Values {
    numbers: [u64; 8],
    count: usize,
}

impl Model for Values {
    ghost Value = { List ℕ };

    ghost view = { λ v. take v.count v.numbers };

    ghost invariant = { λ v. v.count ≤ 8 };
}

impl Values {
    pub fn new() -> Values
        ensures { result ≡ [] }
    {
        Values {
            numbers: [0; 8],
            count: 0,
        }
    }

    pub fn push(&mut self, number: u64)
        requires { length self.old < 8 }
        ensures { self.new ≡ self.old ++ number ∷ [] }
    {
        self.numbers[self.count] = number;
        self.count += 1;
    }

    pub fn as_slice(&self) -> &[u64]
        ensures { result.now ≡ self.now }
    {
        &self.numbers[..self.count]
    }
}
