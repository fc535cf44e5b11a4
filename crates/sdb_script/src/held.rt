// Bytes that were read and not used yet.
ghost use Rattle.std.specs.Prelude.{◌≡◌, ◌⊎◌, ◌+◌, ◌<◌, ◌≤◌, [], length, drop, slice_range, IfOk, IfErr, OnOk, OnErr, Err};
ghost use Rattle.std.specs.Io.KnownBytes.{Keeps};
ghost use Rattle.sdb_base.specs.Causes.{Rose, HasCause};
ghost use Rattle.sdb_script.specs.Held.{Took, buffer_size};

use crate::fault::ScriptFault;
use sdb_base::OutOfMemory;
use sdb_io::{Failed, Source};
use std::alloc::Global;
use std::marker::Model;

// How many bytes are read at most at a time.
pub(crate) const PIECE: usize = 65_536;

// What is held stands in a buffer of this size. It moves to the buffer's front only where a piece has no
// room behind it.
const SIZE: usize = 4 * PIECE;

// Bytes that were read and not used yet, and room for more behind them.
#[derive(Debug, Drop)]
pub(crate) struct HeldBytes {
    buffer: Vec<u8>,
    start: usize,
    end: usize,
}

impl Model for HeldBytes {
    ghost use Rattle.std.specs.Prelude.{◌≤◌, length, slice_range};
    ghost use Rattle.sdb_script.specs.Held.{Held, buffer_size};

    ghost Value = { Held };

    ghost view = { λ it. record { bytes = slice_range it.buffer.items it.start it.end; before = it.start; size = length it.buffer.items } };

    ghost invariant = { λ it. (it.start ≤ it.end) × (it.end ≤ length it.buffer.items) × (length it.buffer.items ≤ buffer_size) };
}

impl HeldBytes {
    // Nothing. It takes no memory, and later calls use this allocator.
    pub(crate) fn new(alloc: Global) -> HeldBytes
        ensures { result.bytes ≡ [] }
    {
        HeldBytes {
            buffer: Vec::new(alloc),
            start: 0,
            end: 0,
        }
    }

    pub(crate) fn as_slice(&self) -> &[u8]
        ensures { result.now ≡ self.now.bytes }
    {
        &self.buffer[self.start..self.end]
    }

    pub(crate) fn len(&self) -> usize
        ensures { result ≡ length self.now.bytes }
    {
        self.end - self.start
    }

    // Takes bytes off the front.
    pub(crate) fn pass(&mut self, count: usize)
        requires { count ≤ length self.old.bytes }
        ensures { self.new.bytes ≡ drop count self.old.bytes }
    {
        self.start += count;
    }

    // Reads once, at most so many bytes, and puts them at the end. `Ok(0)` is the end of the input.
    pub(crate) fn fill<T: Source>(
        &mut self,
        most: usize,
        input: &mut T,
    ) -> Result<usize, ScriptFault>
        requires some { 0 < most }
        requires short { length self.old.bytes < buffer_size }
        ensures took { IfOk result (Took most self.old.bytes self.new.bytes (T.left input.old) (T.left input.new)) }
        ensures err { OnErr result (self.new.bytes ≡ self.old.bytes) }
        ensures kept { OnErr result (Keeps (T.left input.old) (T.left input.new)) }
        ensures read { result ≡ Err ScriptFault.Read → Rose (T.faults input.old) (T.faults input.new) }
        ensures only { IfErr result (λ fault. (fault ≡ ScriptFault.Read) ⊎ (fault ≡ ScriptFault.OutOfMemory)) }
        ensures later { T.faults input.old ≤ T.faults input.new }
    {
        self.make_room()?;
        let room = most.min(self.buffer.len() - self.end);
        let Ok(count) = read_behind(input, &mut self.buffer, self.start, self.end, room) else {
            return Err(ScriptFault::Read);
        };
        self.end += count;
        Ok(count)
    }

    // Sees to it that there is room for a piece, or at least for a byte.
    fn make_room(&mut self) -> Result<(), OutOfMemory>
        requires { length self.old.bytes < buffer_size }
        ensures same { self.new.bytes ≡ self.old.bytes }
        ensures room { OnOk result (self.new.before + length self.new.bytes < self.new.size) }
    {
        self.grow()?;
        if SIZE - self.end < PIECE {
            self.move_to_front();
        }
        Ok(())
    }

    fn grow(&mut self) -> Result<(), OutOfMemory>
        ensures same { self.new.bytes ≡ self.old.bytes }
        ensures whole { OnOk result (self.new.size ≡ buffer_size) }
    {
        if self.buffer.len() < SIZE {
            self.buffer.resize(SIZE, 0)?;
        }
        Ok(())
    }

    fn move_to_front(&mut self)
        ensures same { self.new.bytes ≡ self.old.bytes }
        ensures first { self.new.before ≡ 0 }
        ensures size { self.new.size ≡ self.old.size }
    {
        self.buffer.copy_within(self.start..self.end, 0);
        self.end -= self.start;
        self.start = 0;
    }
}

// Reads once, at most `room` bytes, into what stands behind `end`.
fn read_behind<T: Source>(
    input: &mut T,
    buffer: &mut [u8],
    start: usize,
    end: usize,
    room: usize,
) -> Result<usize, Failed>
    requires some { 0 < room }
    requires order { start ≤ end }
    requires inside { end + room ≤ length buffer.old }
    ensures took { IfOk result (λ count. Took room (slice_range buffer.old start end) (slice_range buffer.new start (end + count)) (T.left input.old) (T.left input.new) count) }
    ensures err { OnErr result (slice_range buffer.new start end ≡ slice_range buffer.old start end) }
    ensures kept { OnErr result (Keeps (T.left input.old) (T.left input.new)) }
    ensures cause { HasCause (T.faults input.old) (T.faults input.new) result }
{
    input.read(&mut buffer[end..end + room])
}
