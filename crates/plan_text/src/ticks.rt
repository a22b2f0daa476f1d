//! The ticks of a plan in order.

use crate::run::Run;
use mach_base::Hart;

/// The ticks of a plan that are left, in order. It takes no memory, however many they are.
#[derive(Debug, Drop)]
pub struct Ticks<'a> {
    /// The harts of the run that is gone through.
    pub harts: &'a [Hart],
    /// How many of them are done this time.
    pub done: usize,
    /// How many more times they are gone through after this time.
    pub times: u64,
    /// The runs after it.
    pub runs: &'a [Run],
}

impl<'a> Ticks<'a> {
    ghost use Rattle.std.specs.Prelude.{◌≡◌, ◌<◌, ◌≤◌, ◌+◌, ◌*◌, ◌^◌, [], ◌∷◌, true, false, length, MatchOption};
    ghost use Rattle.plan_text.specs.Left.{left_in};

    /// The hart of the next tick; None exactly where none is left, and then none is left after it.
    pub fn next_tick(&mut self) -> Option<Hart>
        ensures { MatchOption result ((left_in self.old ≡ []) × (left_in self.new ≡ [])) (λ hart. left_in self.old ≡ hart ∷ left_in self.new) }
    {
        while self.done >= self.harts.len() {
            if !self.go_on() {
                return None;
            }
        }
        let hart = self.harts[self.done];
        self.done += 1;
        Some(hart)
    }

    /// Goes on with the same harts once more, or with the next run; false where neither is left.
    fn go_on(&mut self) -> bool
        requires done { length self.old.harts.now ≤ self.old.done }
        ensures left { left_in self.new ≡ left_in self.old }
        ensures less { result ≡ true → length self.new.runs.now * 2 ^ 64 + self.new.times < length self.old.runs.now * 2 ^ 64 + self.old.times }
        ensures none { result ≡ false → left_in self.new ≡ [] }
    {
        if self.times > 0 {
            self.times -= 1;
            self.done = 0;
            return true;
        }
        let Some((first, rest)) = self.runs.split_first() else {
            return false;
        };
        self.harts = first.harts.as_slice();
        self.done = first.harts.len();
        self.times = first.times;
        self.runs = rest;
        true
    }
}
