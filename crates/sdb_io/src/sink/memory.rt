// A sink in memory, which fails where it is told to.
ghost use Rattle.std.specs.Prelude.{◌≡◌, ◌<◌, ◌+◌, ◌++◌, [], Some, length, OnOk, OnErr, IsErr, IfOk, Contains, is_ok, if◌then◌else◌};
ghost use Rattle.std.specs.Io.{WritesAtMost};
ghost use Rattle.std.specs.Io.KnownBytes.{WriteAppends};
ghost use Rattle.sdb_base.specs.Causes.{HasCause};
ghost use Rattle.sdb_io.specs.Memory.{counted};

use crate::{Failed, Sink};
use sdb_base::Numbers;
use std::alloc::Global;
use std::marker::Model;

/// A sink that keeps what it was given, and fails at the calls whose numbers it was told.
#[derive(Debug, Drop)]
pub struct MemorySink {
    written: Vec<u8>,
    fails: Numbers,
    calls: u64,
    faults: u64,
}

impl Model for MemorySink {
    ghost use Rattle.sdb_io.specs.Memory.{SinkState};

    ghost Value = { SinkState };

    ghost view = { λ s. record { written = s.written.items; fails = s.fails; calls = s.calls; faults = s.faults } };
}

impl MemorySink {
    /// A sink with nothing written. Its calls are numbered from 0.
    pub fn new(alloc: Global, fails: Numbers) -> MemorySink
        ensures { result ≡ record { written = []; fails = fails; calls = 0; faults = 0 } }
    {
        MemorySink {
            written: Vec::new(alloc),
            fails,
            calls: 0,
            faults: 0,
        }
    }

    /// The bytes written so far.
    pub fn written(&self) -> &[u8]
        ensures { result.now ≡ self.now.written }
    {
        self.written.as_slice()
    }
}

impl Sink for MemorySink {
    ghost written = { λ s. Some s.written };

    ghost faults = { λ s. s.faults };

    /// Takes the whole piece. It fails too where there is no memory for it.
    fn write(&mut self, bytes: &[u8]) -> Result<usize, Failed>
        requires { 0 < length bytes.now }

        ensures bound { WritesAtMost result bytes.now }
        ensures some { IfOk result (λ n. 0 < n) }
        ensures bytes { WriteAppends (Some self.old.written) (Some self.new.written) result bytes.now }
        ensures cause { HasCause self.old.faults self.new.faults result }

        ensures fails { Contains self.old.fails self.old.calls → IsErr result }
        ensures all { IfOk result (λ n. n ≡ length bytes.now) }
        ensures same_fails { self.new.fails ≡ self.old.fails }
        ensures calls { self.new.calls ≡ counted self.old.calls }
        ensures faults { self.new.faults ≡ (if is_ok result then self.old.faults else counted self.old.faults) }
    {
        let number = self.calls;
        self.calls = number.saturating_add(1);
        if self.fails.as_slice().contains(&number)
            || self.written.extend_from_slice(bytes).is_err()
        {
            self.faults = self.faults.saturating_add(1);
            return Err(Failed);
        }
        Ok(bytes.len())
    }
}
