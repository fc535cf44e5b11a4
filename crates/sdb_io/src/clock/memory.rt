// A clock in memory.
ghost use Rattle.std.specs.Prelude.{◌≡◌, Some};
ghost use Rattle.sdb_io.specs.Clock.{moment_of, moments_after};

use crate::Clock;
use sdb_base::Numbers;
use std::marker::Model;

/// A clock that gives the moments it was made of, the last one again and again, or 0 where it has none.
#[derive(Debug, Drop)]
pub struct MemoryClock {
    moments: Numbers,
    at: usize,
}

impl Model for MemoryClock {
    ghost use Rattle.std.specs.Prelude.{◌≤◌, ℕ, List, drop, length};

    ghost Value = { List ℕ };

    ghost view = { λ c. drop c.at c.moments };

    ghost invariant = { λ c. c.at ≤ length c.moments };
}

impl MemoryClock {
    /// A clock that gives these moments.
    pub fn new(moments: Numbers) -> MemoryClock
        ensures { result ≡ moments }
    {
        MemoryClock { moments, at: 0 }
    }
}

impl Clock for MemoryClock {
    ghost to_come = { λ c. Some c };

    fn now(&mut self) -> u64
        ensures moment { result ≡ moment_of self.old }
        ensures after { self.new ≡ moments_after self.old }
    {
        let left = &self.moments.as_slice()[self.at..];
        let Some(moment) = left.first() else {
            return 0;
        };
        if left.len() > 1 {
            self.at += 1;
        }
        *moment
    }
}
