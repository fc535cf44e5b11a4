// The system's clock.
ghost use Rattle.std.specs.Prelude.{◌≡◌, None};

use sdb_io::Clock;
use std::rt;
use std::time::{SystemTime, UNIX_EPOCH};

/// The system's clock, which tells nothing of the moments to come. Where the system gives no time, the last moment
/// is given again, or 0 before the first.
#[derive(Drop)]
pub struct SystemClock<R: rt::Clock> {
    rt: R,
    last: u64,
}

impl<R: rt::Clock> SystemClock<R> {
    /// The clock of a runtime.
    pub fn new(rt: R) -> SystemClock<R>
        ensures { ⟦<SystemClock<R> as Clock>⟧.to_come result ≡ None }
    {
        SystemClock { rt, last: 0 }
    }
}

impl<R: rt::Clock> Clock for SystemClock<R> {
    ghost to_come = { λ c. None };

    fn now(&mut self) -> u64 {
        if let Ok(now) = SystemTime::now(&self.rt)
            && let Ok(since) = now.duration_since(UNIX_EPOCH)
        {
            self.last = since.as_secs();
        }
        self.last
    }
}
