// Bytes that are left to write.
ghost use Rattle.std.specs.Prelude.{◌≡◌, ◌+◌, ◌≤◌, ◌++◌, ◌↔◌, [], length, drop, IsTrue, OnOk, OnErr};

use sdb_base::OutOfMemory;
use std::alloc::Global;
use std::marker::Model;

/// How many bytes of a connection may be left: 16 MiB.
pub(crate) const MAX_PENDING: usize = 16 * 1024 * 1024;

/// The bytes that were sent on a connection and that its socket hasn't taken yet.
#[derive(Debug, Drop)]
pub(crate) struct Pending {
    alloc: Global,
    bytes: Vec<u8>,
    // How many bytes at the front were written.
    at: usize,
}

impl Model for Pending {
    ghost use Rattle.std.specs.Prelude.{◌≤◌, ◌*◌, ◌+◌, ℕ, List, drop, length};

    ghost Value = { List ℕ };

    ghost view = { λ p. drop p.at p.bytes.items };

    ghost invariant = { λ p. (p.at ≤ length p.bytes.items) × (length p.bytes.items ≤ p.at + 16 * 1024 * 1024) };
}

impl Pending {
    /// No bytes. It takes no memory.
    pub(crate) fn new(alloc: Global) -> Pending
        ensures { result ≡ [] }
    {
        Pending {
            alloc,
            bytes: Vec::new(alloc),
            at: 0,
        }
    }

    pub(crate) fn is_empty(&self) -> bool
        ensures { IsTrue result ↔ (self.now ≡ []) }
    {
        self.as_slice().is_empty()
    }

    pub(crate) fn len(&self) -> usize
        ensures value { result ≡ length self.now }
        ensures few { result ≤ MAX_PENDING }
    {
        self.bytes.len() - self.at
    }

    /// The bytes that are left, in order.
    pub(crate) fn as_slice(&self) -> &[u8]
        ensures { result.now ≡ self.now }
    {
        &self.bytes[self.at..]
    }

    /// Whether so many more bytes may be left.
    pub(crate) fn has_room(&self, count: usize) -> bool
        ensures { IsTrue result ↔ (length self.now + count ≤ MAX_PENDING) }
    {
        count <= MAX_PENDING - self.len()
    }

    /// Puts bytes at the end.
    pub(crate) fn append(&mut self, bytes: &[u8]) -> Result<(), OutOfMemory>
        requires { length self.old + length bytes.now ≤ MAX_PENDING }
        ensures ok { OnOk result (self.new ≡ self.old ++ bytes.now) }
        ensures err { OnErr result (self.new ≡ self.old) }
    {
        self.compact()?;
        self.bytes.extend_from_slice(bytes)?;
        Ok(())
    }

    // Lets go of what was written, where that is more than what is left, so that each byte is moved a bounded number
    // of times.
    fn compact(&mut self) -> Result<(), OutOfMemory>
        ensures { self.new ≡ self.old }
    {
        if self.at > self.len() {
            self.bytes = Vec::from_slice(self.alloc, &self.bytes[self.at..])?;
            self.at = 0;
        }
        Ok(())
    }

    /// Takes written bytes off the front, at most all. Where none are left, their memory goes.
    pub(crate) fn advance(&mut self, count: usize)
        ensures { self.new ≡ drop count self.old }
    {
        if count < self.len() {
            self.at += count;
        } else {
            self.bytes = Vec::new(self.alloc);
            self.at = 0;
        }
    }
}
