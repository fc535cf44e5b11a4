// The bytes of a script, as a source.
ghost use Rattle.std.specs.Prelude.{◌≡◌, ◌<◌, Some, length, take, min};
ghost use Rattle.std.specs.Io.{ReadsAtMost};
ghost use Rattle.std.specs.Io.KnownBytes.{ReadConsumes};
ghost use Rattle.sdb_base.specs.Causes.{HasCause};

use sdb_base::Bytes;
use sdb_io::{Failed, Source};
use std::marker::Model;

// Gives the bytes that it was made of, and never fails.
#[derive(Drop)]
pub(crate) struct Given {
    bytes: Bytes,
    at: usize,
}

impl Model for Given {
    ghost use Rattle.std.specs.Prelude.{◌≤◌, ℕ, List, drop, length};

    ghost Value = { List ℕ };

    ghost view = { λ s. drop s.at s.bytes.bytes };

    ghost invariant = { λ s. s.at ≤ length s.bytes.bytes };
}

impl Given {
    pub(crate) fn new(bytes: Bytes) -> Given
        ensures { result ≡ bytes.bytes }
    {
        Given { bytes, at: 0 }
    }
}

impl Source for Given {
    ghost left = { λ s. Some s };

    ghost faults = { λ s. 0 };

    fn read(&mut self, buf: &mut [u8]) -> Result<usize, Failed>
        requires { 0 < length buf.old }

        ensures bound { ReadsAtMost result buf.new }
        ensures bytes { ReadConsumes (Some self.old) (Some self.new) result buf.new }
        ensures cause { HasCause 0 0 result }
    {
        let count = copy_front(&self.bytes.as_slice()[self.at..], buf);
        self.at += count;
        Ok(count)
    }
}

// Copies as much of the front as both hold, and gives its length.
fn copy_front(from: &[u8], to: &mut [u8]) -> usize
    ensures count { result ≡ min (length to.old) (length from.now) }
    ensures copied { take result to.new ≡ take result from.now }
{
    let count = to.len().min(from.len());
    to[..count].copy_from_slice(&from[..count]);
    count
}
