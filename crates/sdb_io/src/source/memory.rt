// A source in memory, which fails where it is told to.
ghost use Rattle.std.specs.Prelude.{◌≡◌, ◌<◌, ◌+◌, ◌↔◌, Some, length, take, min, OnOk, OnErr, IsErr, IfOk, Contains, is_ok, if◌then◌else◌};
ghost use Rattle.std.specs.Io.{ReadsAtMost};
ghost use Rattle.std.specs.Io.KnownBytes.{ReadConsumes};
ghost use Rattle.sdb_base.specs.Causes.{HasCause};
ghost use Rattle.sdb_io.specs.Memory.{counted};

use crate::{Failed, Source};
use sdb_base::{Bytes, Numbers};
use std::marker::Model;

/// A source that gives the bytes it was made of, and fails at the calls whose numbers it was told.
#[derive(Debug, Drop)]
pub struct MemorySource {
    bytes: Bytes,
    at: usize,
    fails: Numbers,
    calls: u64,
    faults: u64,
}

impl Model for MemorySource {
    ghost use Rattle.std.specs.Prelude.{◌≤◌, drop, length};
    ghost use Rattle.sdb_io.specs.Memory.{SourceState};

    ghost Value = { SourceState };

    ghost view = { λ s. record { left = drop s.at s.bytes.bytes; fails = s.fails; calls = s.calls; faults = s.faults } };

    ghost invariant = { λ s. s.at ≤ length s.bytes.bytes };
}

impl MemorySource {
    /// A source of these bytes. Its calls are numbered from 0.
    pub fn new(bytes: Bytes, fails: Numbers) -> MemorySource
        ensures { result ≡ record { left = bytes.bytes; fails = fails; calls = 0; faults = 0 } }
    {
        MemorySource {
            bytes,
            at: 0,
            fails,
            calls: 0,
            faults: 0,
        }
    }
}

impl Source for MemorySource {
    ghost left = { λ s. Some s.left };

    ghost faults = { λ s. s.faults };

    /// Gives as many bytes as there are and as the buffer holds.
    fn read(&mut self, buf: &mut [u8]) -> Result<usize, Failed>
        requires { 0 < length buf.old }

        ensures bound { ReadsAtMost result buf.new }
        ensures bytes { ReadConsumes (Some self.old.left) (Some self.new.left) result buf.new }
        ensures cause { HasCause self.old.faults self.new.faults result }

        ensures fails { IsErr result ↔ Contains self.old.fails self.old.calls }
        ensures most { IfOk result (λ n. n ≡ min (length buf.old) (length self.old.left)) }
        ensures same_fails { self.new.fails ≡ self.old.fails }
        ensures calls { self.new.calls ≡ counted self.old.calls }
        ensures faults { self.new.faults ≡ (if is_ok result then self.old.faults else counted self.old.faults) }
    {
        let number = self.calls;
        self.calls = number.saturating_add(1);
        if self.fails.as_slice().contains(&number) {
            self.faults = self.faults.saturating_add(1);
            return Err(Failed);
        }
        let left = &self.bytes.as_slice()[self.at..];
        let count = copy_front(left, buf);
        self.at += count;
        Ok(count)
    }
}

/// Copies as much of the front as both hold, and gives its length.
pub(crate) fn copy_front(from: &[u8], to: &mut [u8]) -> usize
    ensures count { result ≡ min (length to.old) (length from.now) }
    ensures copied { take result to.new ≡ take result from.now }
{
    let count = to.len().min(from.len());
    to[..count].copy_from_slice(&from[..count]);
    count
}
