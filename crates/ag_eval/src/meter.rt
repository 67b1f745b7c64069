//! A counter of evaluations.

ghost use Rattle.std.specs.Prelude.{◌≡◌, ◌+◌, ◌-◌, ◌^◌, ◌<◌, nat_eq};

use std::marker::Model;

/// Counts evaluations. `eval` and `eval_carried` raise the meter by one, even if they fail.
/// `eval_number` and `eval_scalar` raise it by one if they return a value, and leave it unchanged
/// if they return `None`.
#[derive(Drop)]
pub struct Meter {
    count: u64,
}

impl Model for Meter {
    ghost use Rattle.std.specs.Prelude.{ℕ};

    ghost Value = { ℕ };

    ghost view = { λ m. m.count };
}

impl Meter {
    /// Makes a meter at 0. Takes no memory.
    pub fn new() -> Meter
        ensures { result ≡ 0 }
    {
        Meter { count: 0 }
    }

    /// Returns the number of evaluations that the meter has counted.
    pub fn count(&self) -> u64
        ensures { result ≡ self.now }
    {
        self.count
    }

    /// Returns whether the count is 2^64 - 1, the greatest one. A full meter can't count one more
    /// evaluation.
    pub fn is_full(&self) -> bool
        ensures exact { result ≡ nat_eq self.now (2 ^ 64 - 1) }
        ensures fits { self.now < 2 ^ 64 }
    {
        self.count == u64::MAX
    }

    /// Counts one more evaluation.
    pub(crate) fn count_one(&mut self)
        requires { self.old < 2 ^ 64 - 1 }
        ensures { self.new ≡ self.old + 1 }
    {
        self.count += 1;
    }
}
