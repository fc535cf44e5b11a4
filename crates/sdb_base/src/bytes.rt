// Bytes with room behind them.
ghost use Rattle.std.specs.Prelude.{◌≡◌, ◌+◌, ◌≤◌, [], ◌++◌, length, IfOk, IsOk, OnOk, OnErr};

use crate::OutOfMemory;
use std::alloc::Global;
use std::marker::Model;

/// Bytes in order, and room for more of them. Contracts see both: compare `bytes` alone, since equality
/// of whole values compares the room too.
#[derive(Debug, Drop)]
pub struct Bytes {
    inner: Vec<u8>,
}

impl Model for Bytes {
    ghost use Rattle.std.specs.Prelude.{◌-◌, vec_len, vec_capacity};
    ghost use Rattle.sdb_base.specs.Buffer.{Buffer};

    ghost Value = { Buffer };

    ghost view = { λ it. record { bytes = it.inner.items; spare = vec_capacity it.inner - vec_len it.inner } };
}

impl Bytes {
    /// No bytes. It takes no memory.
    pub fn new(alloc: Global) -> Bytes
        ensures { result.bytes ≡ [] }
    {
        Bytes {
            inner: Vec::new(alloc),
        }
    }

    /// No bytes, with room for `room` of them.
    pub fn with_room(alloc: Global, room: usize) -> Result<Bytes, OutOfMemory>
        ensures empty { IfOk result (λ made. made.bytes ≡ []) }
        ensures room { IfOk result (λ made. room ≤ made.spare) }
    {
        Ok(Bytes {
            inner: Vec::with_capacity(alloc, room)?,
        })
    }

    /// A copy of the bytes, with just the room that they need.
    pub fn from_slice(alloc: Global, s: &[u8]) -> Result<Bytes, OutOfMemory>
        ensures { IfOk result (λ made. made.bytes ≡ s.now) }
    {
        Ok(Bytes {
            inner: Vec::from_slice(alloc, s)?,
        })
    }

    /// The bytes, without the room behind them.
    pub fn as_slice(&self) -> &[u8]
        ensures { result.now ≡ self.now.bytes }
    {
        self.inner.as_slice()
    }

    /// The bytes as a vector, with the memory that they stand in.
    pub fn into_vec(self) -> Vec<u8>
        ensures { result.items ≡ self.bytes }
    {
        self.inner
    }

    /// The number of bytes, without the room behind them.
    pub fn len(&self) -> usize
        ensures { result ≡ length self.now.bytes }
    {
        self.inner.len()
    }

    /// Puts `s` at the end. Where there is room for it this needs no memory.
    pub fn append(&mut self, s: &[u8]) -> Result<(), OutOfMemory>
        ensures ok { OnOk result (self.new.bytes ≡ self.old.bytes ++ s.now) }
        ensures err { OnErr result (self.new.bytes ≡ self.old.bytes) }
        ensures room { length s.now ≤ self.old.spare → IsOk result }
        ensures spare { self.old.spare ≤ self.new.spare + length s.now }
        ensures kept { OnErr result (self.old.spare ≤ self.new.spare) }
    {
        self.inner.extend_from_slice(s)?;
        Ok(())
    }
}
